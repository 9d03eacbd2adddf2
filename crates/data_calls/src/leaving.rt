// Bodies that steps outdate.
ghost use Rattle.std.specs.Prelude.{IfOk, OnOk};
ghost use Rattle.pss_machine.specs.Operations.{Done, plain_op, plain_answer};
ghost use Rattle.pss_copies.specs.Stepped.{SetsAt};
ghost use Rattle.data_calls.specs.Leaving.{MayLeave, MayRewrite, IsLeft};

use crate::acting::Acting;
use connector_parts::Parts;
use pss_base::{NoMemory, Pid, Steps};
use pss_machine::{Answer, Op, View};
use std::sync::ledger::Ledger;
use type_layout::Record;

// The record of an object that was set, as the owner sees it.
fn record_set(parts: &Parts, acting: Acting, pid: Pid) -> Result<Record, NoMemory>
    requires { MayRewrite parts.now acting pid }
    ensures { IfOk result (λ values. (m : MayRewrite parts.now acting pid) → SetsAt m.left.kept acting.owner m.left.taken.step.step pid values) }
{
    match parts
        .accounts
        .record_of(acting.owner, parts.schema.schema(), pid.serial)?
    {
        Some(values) => Ok(values),
        None => unreachable!(),
    }
}

// The object was set, of which the owner has a body: its older bodies are left, and that one has its values.
fn write<L: Ledger>(
    parts: &mut Parts,
    acting: Acting,
    pid: Pid,
    steps: &mut Steps<L>,
) -> Result<(), NoMemory>
    requires { MayRewrite parts.old acting pid }
    ensures { OnOk result ((m : MayRewrite parts.old acting pid) → IsLeft m.left parts.new) }
{
    let values = record_set(parts, acting, pid)?;
    parts.attended.write(acting.owner, pid, values, steps);
    Ok(())
}

// The object was set: its older bodies are left, and its body in the owner's view, where there is one, has its values.
fn rewrite<L: Ledger>(
    parts: &mut Parts,
    acting: Acting,
    pid: Pid,
    steps: &mut Steps<L>,
) -> Result<(), NoMemory>
    requires { MayRewrite parts.old acting pid }
    ensures { OnOk result ((m : MayRewrite parts.old acting pid) → IsLeft m.left parts.new) }
{
    if parts
        .attended
        .copies()
        .has_body(pid, View::Own(acting.owner))
    {
        return write(parts, acting, pid, steps);
    }
    parts.attended.outdate(acting.owner, pid, steps);
    Ok(())
}

// The same of an operation that was done, without an object that it found or a value that it read.
fn leave_done<L: Ledger>(
    parts: &mut Parts,
    acting: Acting,
    op: &Op,
    steps: &mut Steps<L>,
) -> Result<(), NoMemory>
    requires { MayLeave parts.old acting (plain_op op.now) Done }
    ensures { OnOk result ((m : MayLeave parts.old acting (plain_op op.now) Done) → IsLeft m parts.new) }
{
    match op {
        Op::Set { pid, .. } => rewrite(parts, acting, *pid, steps),
        Op::Destroy { pid } => {
            parts.attended.remove(acting.owner, *pid, steps);
            Ok(())
        }
        _ => {
            parts.attended.entries_stay();
            Ok(())
        }
    }
}

/// The entries on bodies that a step outdated stand on none.
pub fn leave<L: Ledger>(
    parts: &mut Parts,
    acting: Acting,
    op: &Op,
    answer: &Answer,
    steps: &mut Steps<L>,
) -> Result<(), NoMemory>
    requires { MayLeave parts.old acting (plain_op op.now) (plain_answer answer.now) }
    ensures { OnOk result ((m : MayLeave parts.old acting (plain_op op.now) (plain_answer answer.now)) → IsLeft m parts.new) }
{
    match answer {
        Answer::Done => leave_done(parts, acting, op, steps),
        _ => {
            parts.attended.entries_stay();
            Ok(())
        }
    }
}
