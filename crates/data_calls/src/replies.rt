// Replies to answers.
ghost use Rattle.std.specs.Prelude.{◌≡◌, ◌++◌, IfOk, IfSome, OnOk};
ghost use Rattle.std.specs.Option.{option_map};
ghost use Rattle.type_layout.specs.Members.{plain_member};
ghost use Rattle.type_layout.specs.Types.{Int};
ghost use Rattle.type_layout.specs.Views.{plain_value};
ghost use Rattle.pss_machine.specs.Homes.{home_of, member_at};
ghost use Rattle.pss_machine.specs.Kept.{copies_of};
ghost use Rattle.pss_machine.specs.Operations.{Get, Ask, plain_op, plain_answer};
ghost use Rattle.pss_machine.specs.Stepping.{value_text as text_in, key_name as name_in, reply_to};
ghost use Rattle.pss_asking.specs.Telling.{plain_asked};
ghost use Rattle.data_calls.specs.Replying.{MayPrint, IsOfMember, found_as, MayReply};

use connector_parts::Parts;
use pss_asking::Asked;
use pss_base::{Bytes, NoMemory, Pid};
use pss_machine::{Answer, Op, Reply};
use type_layout::{HomeNo, KeyNo, Member, Value, home_at, key_at};
use value_text::{append_number, append_value, print_value};

// The member of an object with this number.
#[inline(always)]
fn member_of(parts: &Parts, pid: Pid, member: u32) -> Option<&Member>
    ensures { option_map (λ m. plain_member m.now) result ≡ member_at parts.now.schema (home_of pid) member }
{
    match home_at(parts.schema.schema(), HomeNo(pid.home)) {
        Some(home) => home.layout.members.as_slice().get(member as usize),
        None => None,
    }
}

/// The text of a value that was read.
#[inline(always)]
pub fn value_text(parts: &Parts, op: &Op, value: &Value) -> Result<Bytes, NoMemory>
    requires { MayPrint parts.now.schema (plain_op op.now) (plain_value value.now) }
    ensures { IfOk result (λ text. text ≡ text_in parts.now.schema (plain_op op.now) (plain_value value.now)) }
{
    let Op::Get { pid, member } = op else {
        return Ok(Bytes::new(parts.alloc));
    };
    match member_of(parts, *pid, *member) {
        Some(member) => print_value(parts.alloc, &member.ty, value),
        None => Ok(Bytes::new(parts.alloc)),
    }
}

// The name of a key.
fn key_name(parts: &Parts, key: KeyNo) -> Result<Bytes, NoMemory>
    ensures { IfOk result (λ name. name ≡ name_in parts.now.schema key) }
{
    match key_at(parts.schema.schema(), key) {
        Some(key) => key.name.copy(),
        None => Ok(Bytes::new(parts.alloc)),
    }
}

// The reply to an object that was found, by its entry where it has one now.
fn found_reply(entry: Option<u32>, pid: Pid) -> Reply
    ensures { result ≡ found_as entry pid }
{
    match entry {
        Some(entry) => Reply::Entry { entry, pid },
        None => Reply::Reference(pid),
    }
}

/// The reply to an answer, by the entry of what was obtained.
pub fn reply(
    parts: &Parts,
    asked: &Asked,
    answer: Answer,
    entry: Option<u32>,
) -> Result<Reply, NoMemory>
    requires { MayReply parts.now.schema (plain_asked asked.now) (plain_answer answer) entry }
    ensures { IfOk result (λ reply. (m : MayReply parts.now.schema (plain_asked asked.now) (plain_answer answer) entry) → reply ≡ reply_to parts.now.schema m.kept (copies_of m.kept m.session) (plain_asked asked.now) (plain_answer answer)) }
{
    match answer {
        Answer::Done => Ok(Reply::Done),
        Answer::Found(pid) => Ok(found_reply(entry, pid)),
        Answer::Truth(there) => Ok(Reply::Truth(there)),
        Answer::Val(value) => Ok(Reply::Val(value_text(parts, &asked.op, &value)?)),
        Answer::Count(count) => Ok(Reply::Count(count)),
        Answer::List(count, pids) => Ok(Reply::List { count, pids }),
        Answer::NotFound => Ok(Reply::NotFound),
        Answer::Gone(pid) => Ok(Reply::Gone(pid)),
        Answer::Nil => Ok(Reply::Nil),
        Answer::Duplicate(key) => Ok(Reply::Duplicate(key_name(parts, key)?)),
        Answer::TooLarge => Ok(Reply::TooLarge),
        Answer::Busy(_) => unreachable!(),
    }
}

// Adds the text of a member's value to a line, by the member's type.
#[inline(never)]
fn append_typed(
    line: &mut Bytes,
    parts: &Parts,
    pid: Pid,
    member: u32,
    value: &Value,
) -> Result<(), NoMemory>
    requires { IsOfMember parts.now.schema pid member (plain_value value.now) }
    ensures { OnOk result (line.new ≡ line.old ++ text_in parts.now.schema (Ask (Get pid member)) (plain_value value.now)) }
{
    match member_of(parts, pid, member) {
        Some(found) => append_value(line, &found.ty, value),
        None => unreachable!(),
    }
}

// The number that a value is. None: it is none.
#[inline(always)]
fn number_of(value: &Value) -> Option<i128>
    ensures { IfSome result (λ number. plain_value value.now ≡ Int number) }
{
    match value {
        Value::Int(number) => Some(*number),
        _ => None,
    }
}

/// Adds the text of a member's value to a line. A number has one text by each type.
#[inline(always)]
pub fn append_text(
    line: &mut Bytes,
    parts: &Parts,
    pid: Pid,
    member: u32,
    value: &Value,
) -> Result<(), NoMemory>
    requires { IsOfMember parts.now.schema pid member (plain_value value.now) }
    ensures { OnOk result (line.new ≡ line.old ++ text_in parts.now.schema (Ask (Get pid member)) (plain_value value.now)) }
{
    match number_of(value) {
        Some(number) => append_number(line, number),
        None => append_typed(line, parts, pid, member, value),
    }
}
