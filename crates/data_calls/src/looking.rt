// Members that are read off bodies.
ghost use Rattle.std.specs.Prelude.{◌≡◌, Some, IfOk, IfSome, IsSomeAnd};
ghost use Rattle.std.specs.List.{slice_get};
ghost use Rattle.std.specs.Option.{option_copied, option_and_then, option_map};
ghost use Rattle.std.specs.FinMap.{get};
ghost use Rattle.type_layout.specs.Views.{plain_value};
ghost use Rattle.pss_machine.specs.Operations.{Val};
ghost use Rattle.incarnations.specs.Meaning.{AreCopies, slot, body_under};
ghost use Rattle.pss_asking.specs.Telling.{plain_asked};
ghost use Rattle.type_layout.specs.Types.{Ref};
ghost use Rattle.data_calls.specs.Copied.{MayAct, IsRead, IsLed};

use crate::acting::Acting;
use connector_parts::Parts;
use pss_asking::Asked;
use pss_base::{NoMemory, Pid, SessionNo};
use pss_machine::Op;
use std::alloc::Global;
use type_layout::{Record, Value};

/// The value of a member of an object, as a body has it.
#[derive(Drop)]
pub struct Sight {
    pub pid: Pid,
    pub value: Value,
}

/// The object that a member of an object refers to, or none, as a body has it.
#[derive(Clone, Copy, Drop)]
pub struct Followed {
    pub pid: Pid,
    pub to: Option<Pid>,
}

/// The values of the body on which an entry of the session stands.
#[inline(always)]
pub fn values_of(parts: &Parts, session: SessionNo, entry: Option<u32>) -> Option<&Record>
    ensures hold { AreCopies parts.now.attended.copies }
    ensures values { IfSome (option_copied result) (λ values. IsSomeAnd entry (λ n. option_and_then (get parts.now.attended.copies.bodies) (body_under parts.now.attended.copies (slot session n)) ≡ Some values)) }
{
    let copies = parts.attended.copies();
    copies.copies_hold();
    match entry {
        Some(number) => copies.value(session, number),
        None => None,
    }
}

/// The value of a member.
#[inline(always)]
pub fn value_at(alloc: Global, values: &Record, member: u32) -> Result<Option<Value>, NoMemory>
    ensures { IfOk result (λ found. option_map plain_value found ≡ slice_get values.now member) }
{
    match value_in(values, member) {
        Some(value) => Ok(Some(value.copy(alloc)?)),
        None => Ok(None),
    }
}

/// The value of a member, which is not copied.
#[inline(always)]
pub fn value_in(values: &Record, member: u32) -> Option<&Value>
    ensures { option_map (λ value. plain_value value.now) result ≡ slice_get values.now member }
{
    values.0.as_slice().get(member as usize)
}

// What a value refers to. None: it is no reference.
fn referred(value: &Value) -> Option<Option<Pid>>
    ensures { IfSome result (λ to. plain_value value.now ≡ Ref to) }
{
    match value {
        Value::Ref(to) => Some(*to),
        _ => None,
    }
}

// What a member refers to. None: it is no reference.
fn referred_at(values: &Record, member: u32) -> Option<Option<Pid>>
    ensures { IfSome result (λ to. slice_get values.now member ≡ Some (Ref to)) }
{
    match value_in(values, member) {
        Some(value) => referred(value),
        None => None,
    }
}

/// The member of an object that is followed, as the body has it on which the named entry stands. None: no member is followed,
/// or the entry stands on no body.
pub fn led_off(parts: &Parts, acting: Acting, asked: &Asked) -> Option<Followed>
    ensures { IfSome result (λ followed. (m : MayAct parts.now acting (plain_asked asked.now)) → IsLed m followed.pid followed.to) }
{
    let Op::Follow { pid, member } = &asked.op else {
        return None;
    };
    let Some(values) = values_of(parts, acting.session, asked.entry) else {
        return None;
    };
    match referred_at(values, *member) {
        Some(to) => Some(Followed { pid: *pid, to }),
        None => None,
    }
}

/// The member of an object that is asked for, as the body has it on which the named entry stands. None: no member is asked
/// for, or the entry stands on no body.
pub fn read_off(parts: &Parts, acting: Acting, asked: &Asked) -> Result<Option<Sight>, NoMemory>
    ensures { IfOk result (λ found. IfSome found (λ sight. (m : MayAct parts.now acting (plain_asked asked.now)) → IsRead m sight.pid (Val (plain_value sight.value)))) }
{
    let Op::Get { pid, member } = &asked.op else {
        return Ok(None);
    };
    let Some(values) = values_of(parts, acting.session, asked.entry) else {
        return Ok(None);
    };
    match value_at(parts.alloc, values, *member)? {
        Some(value) => Ok(Some(Sight { pid: *pid, value })),
        None => Ok(None),
    }
}
