// Commands from what they ask to their replies.
ghost use Rattle.std.specs.Prelude.{◌≡◌, Result, Ok, IfOk, OnOk};
ghost use Rattle.pss_machine.specs.declared.reply.Reply.{Reply as PlainReply};
ghost use Rattle.pss_machine.specs.Operations.{plain_op, plain_answer};
ghost use Rattle.pss_machine.specs.Asking.{Asked as PlainAsked};
ghost use Rattle.pss_asking.specs.Telling.{Tells, plain_asked};
ghost use Rattle.data_calls.specs.Asking.{Asks, AnyAsks, decision_on, Follows};
ghost use Rattle.data_calls.specs.Finishing.{AnyTaken, AreSeated, IsFinished, made_in, without_record, asked_without};

use crate::acting::Acting;
use crate::granting::{Grant, attempt, reply_of};
use crate::leaving::leave;
use crate::obtaining::{obtain_found, seat_named};
use crate::replies::reply;
use connector_parts::Parts;
use pss_asking::{AskFault, Asked};
use pss_base::{NoMemory, Steps};
use pss_machine::{Answer, Op, Reply};
use std::alloc::Global;
use std::mem;
use std::sync::ledger::Ledger;
use type_layout::{Record, Values};

// The record of the object that an operation makes, which is taken out of it. None: it makes no object.
fn made_by(alloc: Global, op: &mut Op) -> Option<Record>
    ensures made { result ≡ made_in (plain_op op.old) }
    ensures left { plain_op op.new ≡ without_record (plain_op op.old) }
{
    match op {
        Op::Create { value, .. } => Some(mem::replace(value, Record(Values::new(alloc)))),
        _ => None,
    }
}

// The entries come to stand as after the step. The answer is the number of the entry by which what was found is obtained.
// The record of a new object is moved from the operation to its body: it is not copied again.
fn seat_all<L: Ledger>(
    parts: &mut Parts,
    acting: Acting,
    asked: &mut Asked,
    answer: &Answer,
    steps: &mut Steps<L>,
) -> Result<Option<u32>, NoMemory>
    requires { AnyTaken parts.old acting (plain_asked asked.old) (plain_answer answer.now) }
    ensures seated { IfOk result (λ entry. (m : AnyTaken parts.old acting (plain_asked asked.old) (plain_answer answer.now)) → AreSeated m entry parts.new) }
    ensures left { OnOk result (plain_asked asked.new ≡ asked_without (plain_asked asked.old)) }
{
    leave(parts, acting, &asked.op, answer, steps)?;
    seat_named(parts, acting, asked.entry, answer)?;
    let made = made_by(parts.alloc, &mut asked.op);
    obtain_found(parts, acting, asked.obtains, answer, made)
}

// The reply to a step that was taken.
fn finish<L: Ledger>(
    parts: &mut Parts,
    acting: Acting,
    asked: &mut Asked,
    answer: Answer,
    steps: &mut Steps<L>,
) -> Result<Reply, NoMemory>
    requires { AnyTaken parts.old acting (plain_asked asked.old) (plain_answer answer) }
    ensures { IfOk result (λ reply. (m : AnyTaken parts.old acting (plain_asked asked.old) (plain_answer answer)) → IsFinished m reply parts.new) }
{
    match seat_all(parts, acting, asked, &answer, steps) {
        Ok(entry) => reply(parts, asked, answer, entry),
        Err(memory) => Err(memory),
    }
}

// The reply to a command by what it asks.
#[inline(always)]
fn perform<L: Ledger>(
    parts: &mut Parts,
    acting: Acting,
    asked: &mut Asked,
    steps: &mut Steps<L>,
) -> Result<Reply, NoMemory>
    requires { Asks parts.old acting (Ok (plain_asked asked.old)) }
    ensures { IfOk result (λ reply. (a : Asks parts.old acting (Ok (plain_asked asked.old))) → Follows parts.old a.kept (decision_on a) reply parts.new) }
{
    match attempt(parts, acting, asked)? {
        Grant::Taken(answer) => finish(parts, acting, asked, answer, steps),
        Grant::Refused(reply) => Ok(reply),
    }
}

// The reply to a command by what its words ask, if anything.
#[inline(always)]
fn reply_to<L: Ledger>(
    parts: &mut Parts,
    acting: Acting,
    asked: &mut Result<Asked, AskFault>,
    steps: &mut Steps<L>,
) -> Result<Reply, NoMemory>
    requires { AnyAsks parts.old acting asked.old }
    ensures { IfOk result (λ reply. (told : Result PlainAsked PlainReply) (a : Asks parts.old acting told) → Tells plain_asked asked.old told → Follows parts.old a.kept (decision_on a) reply parts.new) }
{
    match asked {
        Ok(asked) => perform(parts, acting, asked, steps),
        Err(fault) => match fault {
            AskFault::Memory => Err(NoMemory),
            AskFault::Refused(refusal) => Ok(reply_of(*refusal)),
        },
    }
}

/// The reply to a command by what its words ask. After `NoMemory` nothing is said of the parts.
#[inline(never)]
pub fn ask<L: Ledger>(
    parts: &mut Parts,
    acting: Acting,
    mut asked: Result<Asked, AskFault>,
    steps: &mut Steps<L>,
) -> Result<Reply, NoMemory>
    requires { AnyAsks parts.old acting asked }
    ensures { IfOk result (λ reply. (told : Result PlainAsked PlainReply) (a : Asks parts.old acting told) → Tells plain_asked asked told → Follows parts.old a.kept (decision_on a) reply parts.new) }
{
    let reply = reply_to(parts, acting, &mut asked, steps);
    // Here and not at the end: so its many forms are not taken apart in the clause above.
    drop(asked);
    reply
}
