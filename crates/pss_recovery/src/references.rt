// Whether what a record refers to was given.
ghost use Rattle.std.specs.Prelude.{◌≡◌, ◌↔◌, IsTrue, map};
ghost use Rattle.std.specs.List.{flat_map};
ghost use Rattle.type_layout.specs.Types.{Ref, values_of};
ghost use Rattle.type_layout.specs.Views.{plain_value};
ghost use Rattle.pss_catalog.specs.Catalog.{AreGiven, all_references, references};
ghost use Rattle.pss_recovery.specs.inner.Below.{are_given};

use pss_base::Pid;
use type_layout::{Record, Value};

// Whether an object, where there is one, was made before the next serial.
fn is_given(pid: Option<Pid>, next: u64) -> bool
    ensures { result ≡ are_given next (references (Ref pid)) }
{
    match pid {
        Some(pid) => pid.serial > 0 && pid.serial < next,
        None => true,
    }
}

#[cycle(refers)]
fn refers_below(value: &Value, next: u64) -> bool
    ensures { result ≡ are_given next (references (plain_value value.now)) }
{
    match value {
        Value::Int(_) => true,
        Value::Char(_) => true,
        Value::Bool(_) => true,
        Value::Enum(_) => true,
        Value::Str(_) => true,
        Value::List(items) => all_refer_below(items.as_slice(), next),
        Value::Struct(parts) => all_refer_below(parts.as_slice(), next),
        Value::Ref(pid) => is_given(*pid, next),
    }
}

#[cycle(refers)]
fn all_refer_below(values: &[Value], next: u64) -> bool
    ensures { result ≡ are_given next (all_references (values_of (map plain_value values.now))) }
{
    for value in values {
        if !refers_below(value, next) {
            return false;
        }
    }
    true
}

/// Whether each object that a record refers to was made before the next serial. It takes time in the record's size.
pub fn record_refers_below(values: &Record, next: u64) -> bool
    ensures { IsTrue result ↔ AreGiven next (flat_map references values.now) }
{
    all_refer_below(values.0.as_slice(), next)
}
