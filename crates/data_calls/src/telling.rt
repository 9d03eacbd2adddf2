// Members that a basic session reads and a body tells at once: their values are printed into a line.
ghost use Rattle.std.specs.Prelude.{◌≡◌, Some, IfOk, IfSome};
ghost use Rattle.std.specs.Option.{option_map, option_and_then};
ghost use Rattle.std.specs.FinMap.{get};
ghost use Rattle.type_layout.specs.Views.{plain_value};
ghost use Rattle.pss_machine.specs.Copies.{entry_numbered};
ghost use Rattle.pss_machine.specs.Kept.{Kept, copies_of};
ghost use Rattle.incarnations.specs.Meaning.{AreCopies, slot, body_under};
ghost use Rattle.connector_parts.specs.Stands.{AnyAt, IsAt};
ghost use Rattle.data_calls.specs.Glances.{IsSeen, IsPrinted, IsTold};

use crate::acting::{Acting, acting_in};
use crate::looking::value_in;
use crate::replies::append_text;
use connector_parts::{Parts, entry_number};
use incarnations::Shown;
use pss_base::{Bytes, NoMemory, Pid};
use type_layout::{HomeNo, Value};

// The value of a member that a session reads, as a body has it.
#[derive(Clone, Copy)]
struct Seen<'a> {
    acting: Acting,
    pid: Pid,
    member: u32,
    value: &'a Value,
}

// What an entry of the session shows. None: there is no such entry, or it stands on no body.
#[inline(always)]
fn shown_by(parts: &Parts, acting: Acting, entry: u64) -> Option<Shown<'_>>
    ensures hold { AreCopies parts.now.attended.copies }
    ensures pid { (k : Kept) → IsAt parts.now k → IfSome result (λ shown. option_map (λ e. e.pid) (entry_numbered (copies_of k acting.session) entry) ≡ Some shown.pid) }
    ensures value { IfSome result (λ shown. option_and_then (get parts.now.attended.copies.bodies) (body_under parts.now.attended.copies (slot acting.session entry)) ≡ Some shown.value.now) }
{
    let copies = parts.attended.copies();
    copies.copies_hold();
    match entry_number(entry) {
        Some(number) => copies.shown(acting.session, number),
        None => None,
    }
}

// The value that a `get` of these words reads, where its session is basic and its entry stands on a body.
#[inline(always)]
fn look<'a>(parts: &'a Parts, name: &[u8], entry: u64, word: &[u8]) -> Option<Seen<'a>>
    ensures { IfSome result (λ seen. (k : Kept) → IsAt parts.now k → IsSeen parts.now k name.now entry word.now seen.acting seen.pid seen.member (plain_value seen.value.now)) }
{
    let acting = acting_in(parts, name)?;
    if !acting.basic {
        return None;
    }
    let shown = shown_by(parts, acting, entry)?;
    let member = parts.schema.member(HomeNo(shown.pid.home), word)?;
    let value = value_in(shown.value, member)?;
    Some(Seen {
        acting,
        pid: shown.pid,
        member,
        value,
    })
}

// Adds the text of that value to the line, and tells in which session. None: there is none.
#[inline(always)]
fn print_seen(
    parts: &Parts,
    name: &[u8],
    entry: u64,
    word: &[u8],
    line: &mut Bytes,
) -> Result<Option<Acting>, NoMemory>
    requires { AnyAt parts.now }
    ensures { IfOk result (λ acting. IsPrinted parts.now name.now entry word.now acting line.old line.new) }
{
    match look(parts, name, entry, word) {
        Some(seen) => {
            append_text(line, parts, seen.pid, seen.member, seen.value)?;
            Ok(Some(seen.acting))
        }
        None => Ok(None),
    }
}

/// A `get` of these words that a body tells: the text of the value is added to the line. Nothing is locked or changed, the entry stands
/// where it stood, and the owner has done a command more. False, which may come for any words: all is as before, and it is to be asked by
/// `get`. After `NoMemory` nothing is said of the line.
#[inline(always)]
pub fn tell(
    parts: &mut Parts,
    name: &[u8],
    entry: u64,
    word: &[u8],
    line: &mut Bytes,
) -> Result<bool, NoMemory>
    requires { AnyAt parts.old }
    ensures { IfOk result (λ told. IsTold parts.old parts.new name.now entry word.now told line.old line.new) }
{
    match print_seen(parts, name, entry, word, line) {
        Ok(Some(acting)) => {
            parts.accounts.count(acting.owner);
            parts.attended.entries_stay();
            Ok(true)
        }
        Ok(None) => Ok(false),
        Err(memory) => Err(memory),
    }
}
