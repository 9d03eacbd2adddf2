// Steps of owners.
ghost use Rattle.std.specs.Prelude.{◌≡◌, IfOk};
ghost use Rattle.type_layout.specs.Views.{plain_value};
ghost use Rattle.pss_machine.specs.Asking.{Asked as PlainAsked};
ghost use Rattle.pss_machine.specs.Kept.{Kept, name_of};
ghost use Rattle.pss_machine.specs.Operations.{Val, plain_answer};
ghost use Rattle.pss_machine.specs.declared.reply.Reply.TheVariants as reply;
ghost use Rattle.pss_asking.specs.Telling.{plain_asked};
ghost use Rattle.connector_parts.specs.Stands.{Stands};
ghost use Rattle.data_calls.specs.declared.granting.Grant.TheVariants as granted;
ghost use Rattle.data_calls.specs.Asking.{MayTake, decision_on, IsGranted};
ghost use Rattle.data_calls.specs.Copied.{MayTell, MayLead, MayAct, MayLook, MayFollow};

use crate::acting::Acting;
use crate::copied::{Told, consult};
use crate::granting::Grant;
use crate::looking::{Followed, Sight, led_off, read_off};
use connector_parts::Parts;
use pss_asking::Asked;
use pss_base::{NoMemory, OwnerNo, Pid};
use pss_machine::{Answer, Op, Reply};

// Another owner holds the step up.
fn held_up(parts: &Parts, other: OwnerNo) -> Result<Grant, NoMemory>
    ensures { IfOk result (λ grant. (k : Kept) → Stands parts.now k → grant ≡ granted.Refused (reply.Busy (name_of k other))) }
{
    Ok(Grant::Refused(Reply::Busy(parts.name_of(other)?)))
}

// The owner takes the step on what it sees, unless another one holds it up.
fn act(parts: &mut Parts, acting: Acting, asked: &Asked) -> Result<Grant, NoMemory>
    requires { MayAct parts.old acting (plain_asked asked.now) }
    ensures { IfOk result (λ grant. (m : MayAct parts.old acting (plain_asked asked.now)) → IsGranted parts.old m.take.asks.kept (decision_on m.take.asks) acting (plain_asked asked.now) grant parts.new) }
{
    let answer = parts
        .accounts
        .act(acting.owner, parts.schema.schema(), &asked.op)?;
    match answer {
        Answer::Busy(other) => held_up(parts, other),
        answer => Ok(Grant::Taken(answer)),
    }
}

// The session's own copy has answered: the owner has done a command more.
fn tell(parts: &mut Parts, acting: Acting, answer: Answer) -> Grant
    requires { (asked : PlainAsked) × MayTell parts.old acting asked (plain_answer answer) }
    ensures { (asked : PlainAsked) (m : MayTell parts.old acting asked (plain_answer answer)) → IsGranted parts.old m.take.asks.kept (decision_on m.take.asks) acting asked result parts.new }
{
    parts.accounts.count(acting.owner);
    Grant::Taken(answer)
}

// The session's own copy leads to an object, which is looked up in what the owner sees.
fn lead(parts: &mut Parts, acting: Acting, pid: Pid) -> Result<Grant, NoMemory>
    requires { (asked : PlainAsked) × MayLead parts.old acting asked pid }
    ensures { IfOk result (λ grant. (asked : PlainAsked) (m : MayLead parts.old acting asked pid) → IsGranted parts.old m.take.asks.kept (decision_on m.take.asks) acting asked grant parts.new) }
{
    let schema = parts.schema.schema();
    match parts
        .accounts
        .act(acting.owner, schema, &Op::FindPid { pid })?
    {
        Answer::Found(_) => Ok(Grant::Taken(Answer::Found(pid))),
        _ => Ok(Grant::Taken(Answer::Gone(pid))),
    }
}

// A body has told of the member that is asked for: the owner looks whether the object is there, which locks the same and
// decodes nothing.
fn look(parts: &mut Parts, acting: Acting, sight: Sight) -> Result<Grant, NoMemory>
    requires { (asked : PlainAsked) × MayLook parts.old acting asked sight.pid (Val (plain_value sight.value)) }
    ensures { IfOk result (λ grant. (asked : PlainAsked) (m : MayLook parts.old acting asked sight.pid (Val (plain_value sight.value))) → IsGranted parts.old m.act.take.asks.kept (decision_on m.act.take.asks) acting asked grant parts.new) }
{
    let Sight { pid, value } = sight;
    let schema = parts.schema.schema();
    let answer = parts
        .accounts
        .act(acting.owner, schema, &Op::Exists { pid })?;
    match answer {
        Answer::Busy(other) => held_up(parts, other),
        _ => Ok(Grant::Taken(Answer::Val(value))),
    }
}

// A body has told what the member refers to that is followed: the owner looks whether that object is there, and decodes nothing.
fn lead_off(parts: &mut Parts, acting: Acting, followed: Followed) -> Result<Grant, NoMemory>
    requires { (asked : PlainAsked) × MayFollow parts.old acting asked followed.pid followed.to }
    ensures { IfOk result (λ grant. (asked : PlainAsked) (m : MayFollow parts.old acting asked followed.pid followed.to) → IsGranted parts.old m.act.take.asks.kept (decision_on m.act.take.asks) acting asked grant parts.new) }
{
    let told = parts.accounts.follow(
        acting.owner,
        parts.schema.schema(),
        followed.pid,
        followed.to,
    )?;
    match told {
        Answer::Busy(other) => held_up(parts, other),
        told => Ok(Grant::Taken(told)),
    }
}

// No member is read: one may be followed by the body, else the step is taken on what the owner sees.
fn go(parts: &mut Parts, acting: Acting, asked: &Asked) -> Result<Grant, NoMemory>
    requires { MayAct parts.old acting (plain_asked asked.now) }
    ensures { IfOk result (λ grant. (m : MayAct parts.old acting (plain_asked asked.now)) → IsGranted parts.old m.take.asks.kept (decision_on m.take.asks) acting (plain_asked asked.now) grant parts.new) }
{
    match led_off(parts, acting, asked) {
        Some(followed) => lead_off(parts, acting, followed),
        None => act(parts, acting, asked),
    }
}

// No copy of the session's own has told: a body that its entry shares may, else the step is taken on what the owner sees.
fn take(parts: &mut Parts, acting: Acting, asked: &Asked) -> Result<Grant, NoMemory>
    requires { MayAct parts.old acting (plain_asked asked.now) }
    ensures { IfOk result (λ grant. (m : MayAct parts.old acting (plain_asked asked.now)) → IsGranted parts.old m.take.asks.kept (decision_on m.take.asks) acting (plain_asked asked.now) grant parts.new) }
{
    match read_off(parts, acting, asked)? {
        Some(sight) => look(parts, acting, sight),
        None => go(parts, acting, asked),
    }
}

/// The owner takes the step of what is asked, unless another one holds it up. After `NoMemory` nothing is said of the
/// parts.
pub fn step(parts: &mut Parts, acting: Acting, asked: &Asked) -> Result<Grant, NoMemory>
    requires { MayTake parts.old acting (plain_asked asked.now) }
    ensures { IfOk result (λ grant. (m : MayTake parts.old acting (plain_asked asked.now)) → IsGranted parts.old m.asks.kept (decision_on m.asks) acting (plain_asked asked.now) grant parts.new) }
{
    match consult(parts, acting, asked)? {
        Told::Nothing => take(parts, acting, asked),
        Told::Answer(answer) => Ok(tell(parts, acting, answer)),
        Told::Lead(pid) => lead(parts, acting, pid),
    }
}
