// What a session's own copies tell.
ghost use Rattle.std.specs.Prelude.{◌≡◌, Some, None, IfOk, if◌then◌else◌};
ghost use Rattle.std.specs.Option.{option_copied};
ghost use Rattle.pss_catalog.specs.Catalog.{Catalog};
ghost use Rattle.type_layout.specs.Views.{plain_value};
ghost use Rattle.pss_machine.specs.Operations.{plain_op};
ghost use Rattle.pss_machine.specs.Kept.{Kept, copies_of};
ghost use Rattle.pss_machine.specs.Stepping.{copied_values, told_by_copy};
ghost use Rattle.pss_machine.specs.Alone.{followed};
ghost use Rattle.pss_asking.specs.Telling.{plain_asked};
ghost use Rattle.connector_parts.specs.Stands.{IsAt};
ghost use Rattle.data_calls.specs.Acting.{IsActing};
ghost use Rattle.data_calls.specs.Copied.{told_as, copy_tells};

use crate::acting::Acting;
use crate::looking::value_in;
use connector_parts::Parts;
use pss_asking::Asked;
use pss_base::{NoMemory, Pid, SessionNo};
use pss_machine::{Answer, Op, View};
use std::alloc::Global;
use type_layout::{Record, Value};

/// What a session's own copy tells of an operation.
#[derive(Drop)]
pub enum Told {
    /// Nothing: it is done on what the owner sees.
    Nothing,
    /// The answer.
    Answer(Answer),
    /// That the answer is this object where the owner sees it, else that it is gone.
    Lead(Pid),
}

// The values of the session's own copy on which the entry of a number stands.
fn copy_of(parts: &Parts, session: SessionNo, number: u32) -> Option<&Record>
    ensures { (k : Kept) → IsAt parts.now k → option_copied result ≡ copied_values (copies_of k session) (Some number) }
{
    let copies = parts.attended.copies();
    copies.copies_hold();
    let Some(pid) = copies.pid_of(session, number) else {
        return None;
    };
    if copies.has_body(pid, View::Kept(session)) {
        copies.value(session, number)
    } else {
        None
    }
}

// The values of the own copy of the session on which an entry stands.
fn copied(parts: &Parts, acting: Acting, entry: Option<u32>) -> Option<&Record>
    ensures { (k : Kept) → IsAt parts.now k → option_copied result ≡ (if acting.basic then copied_values (copies_of k acting.session) entry else None) }
{
    if !acting.basic {
        return None;
    }
    match entry {
        Some(number) => copy_of(parts, acting.session, number),
        None => None,
    }
}

// What a value tells of where a member of an object leads.
fn led(pid: Pid, value: &Value) -> Told
    ensures { (M : Catalog) → told_as M result ≡ Some (followed M pid (plain_value value.now)) }
{
    match value {
        Value::Ref(Some(to)) => Told::Lead(*to),
        Value::Ref(None) => Told::Answer(Answer::Nil),
        // No reference: `follow` refuses such a member before a copy is asked.
        _ => Told::Answer(Answer::Gone(pid)),
    }
}

// What these values tell of an operation.
fn told_by(alloc: Global, values: &Record, op: &Op) -> Result<Told, NoMemory>
    ensures { IfOk result (λ told. (M : Catalog) → told_as M told ≡ told_by_copy M values.now (plain_op op.now)) }
{
    match op {
        Op::Get { member, .. } => match value_in(values, *member) {
            Some(value) => Ok(Told::Answer(Answer::Val(value.copy(alloc)?))),
            None => Ok(Told::Nothing),
        },
        Op::Follow { pid, member } => match value_in(values, *member) {
            Some(value) => Ok(led(*pid, value)),
            None => Ok(Told::Nothing),
        },
        _ => Ok(Told::Nothing),
    }
}

// What the session's own copy on which the named entry stands tells of what is asked.
fn told_of(parts: &Parts, acting: Acting, asked: &Asked) -> Result<Told, NoMemory>
    ensures { IfOk result (λ told. (k : Kept) (is : IsActing k acting) → IsAt parts.now k → copy_tells k is (plain_asked asked.now) told) }
{
    match copied(parts, acting, asked.entry) {
        Some(values) => told_by(parts.alloc, values, &asked.op),
        None => Ok(Told::Nothing),
    }
}

/// What the session's own copy on which the named entry stands tells of what is asked. It is looked for where that is of a
/// member: of nothing else does a copy tell.
pub fn consult(parts: &Parts, acting: Acting, asked: &Asked) -> Result<Told, NoMemory>
    ensures { IfOk result (λ told. (k : Kept) (is : IsActing k acting) → IsAt parts.now k → copy_tells k is (plain_asked asked.now) told) }
{
    match &asked.op {
        Op::Get { .. } => told_of(parts, acting, asked),
        Op::Follow { .. } => told_of(parts, acting, asked),
        _ => Ok(Told::Nothing),
    }
}
