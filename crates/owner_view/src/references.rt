// The objects that values refer to.
ghost use Rattle.std.specs.Prelude.{◌≡◌, ◌++◌, map, OnOk, IfOk};
ghost use Rattle.std.specs.List.{flat_map};
ghost use Rattle.type_layout.specs.Types.{Ref, values_of};
ghost use Rattle.type_layout.specs.Views.{plain_value};
ghost use Rattle.pss_catalog.specs.Catalog.{references, all_references};

use pss_base::{NoMemory, Pid};
use std::alloc::Global;
use type_layout::{Record, Value};

/// The objects that a value refers to.
pub fn references_of(alloc: Global, value: &Value) -> Result<Vec<Pid>, NoMemory>
    ensures { IfOk result (λ pids. pids.items ≡ references (plain_value value.now)) }
{
    let mut pids = Vec::new(alloc);
    push(&mut pids, value)?;
    Ok(pids)
}

/// The objects that the values of a record refer to.
pub fn all_references_of(alloc: Global, values: &Record) -> Result<Vec<Pid>, NoMemory>
    ensures { IfOk result (λ pids. pids.items ≡ flat_map references values.now) }
{
    let mut pids = Vec::new(alloc);
    push_all(&mut pids, values.0.as_slice())?;
    Ok(pids)
}

#[cycle(push)]
#[inline(always)]
fn push(pids: &mut Vec<Pid>, value: &Value) -> Result<(), NoMemory>
    ensures { OnOk result (pids.new.items ≡ pids.old.items ++ references (plain_value value.now)) }
{
    match value {
        Value::Int(_) => Ok(()),
        Value::Char(_) => Ok(()),
        Value::Bool(_) => Ok(()),
        Value::Enum(_) => Ok(()),
        Value::Str(_) => Ok(()),
        Value::List(items) => push_all(pids, items.as_slice()),
        Value::Struct(parts) => push_all(pids, parts.as_slice()),
        Value::Ref(pid) => push_pid(pids, *pid),
    }
}

#[cycle(push)]
#[inline(always)]
fn push_all(pids: &mut Vec<Pid>, values: &[Value]) -> Result<(), NoMemory>
    ensures { OnOk result (pids.new.items ≡ pids.old.items ++ all_references (values_of (map plain_value values.now))) }
{
    for value in values {
        push(pids, value)?;
    }
    Ok(())
}

fn push_pid(pids: &mut Vec<Pid>, pid: Option<Pid>) -> Result<(), NoMemory>
    ensures { OnOk result (pids.new.items ≡ pids.old.items ++ references (Ref pid)) }
{
    if let Some(pid) = pid {
        pids.push(pid)?;
    }
    Ok(())
}
