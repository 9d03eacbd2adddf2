// Commands that ask something, and may be done.
ghost use Rattle.std.specs.Prelude.{◌≡◌, Ok, IfOk};
ghost use Rattle.pss_asking.specs.Telling.{plain_asked, reply_of as reply_in};
ghost use Rattle.data_calls.specs.Asking.{Asks, decision_on, IsGranted};

use crate::acting::Acting;
use crate::limits::limited;
use crate::stepping::step;
use connector_parts::Parts;
use pss_asking::{Asked, Refusal};
use pss_base::NoMemory;
use pss_machine::{Answer, Reply};

/// What becomes of a command before any entry stands elsewhere.
#[derive(Drop)]
pub enum Grant {
    /// The owner has taken the step of what is asked, with this answer.
    Taken(Answer),
    /// All is as before, and this is the reply.
    Refused(Reply),
}

/// The reply that a refusal is.
pub fn reply_of(refusal: Refusal) -> Reply
    ensures { result ≡ reply_in refusal }
{
    match refusal {
        Refusal::NoEntry => Reply::NoEntry,
        Refusal::NoHome => Reply::NoHome,
        Refusal::NoKey => Reply::NoKey,
        Refusal::NoFactory => Reply::NoFactory,
        Refusal::NoMember => Reply::NoMember,
        Refusal::NotRef => Reply::NotRef,
        Refusal::BadValue(column) => Reply::BadValue(column),
        Refusal::ReadOnly => Reply::ReadOnly,
    }
}

/// What becomes of a command by what it asks: it is done where it is within the limits. After `NoMemory` nothing is said of
/// the parts.
pub fn attempt(parts: &mut Parts, acting: Acting, asked: &Asked) -> Result<Grant, NoMemory>
    requires { Asks parts.old acting (Ok (plain_asked asked.now)) }
    ensures { IfOk result (λ grant. (a : Asks parts.old acting (Ok (plain_asked asked.now))) → IsGranted parts.old a.kept (decision_on a) acting (plain_asked asked.now) grant parts.new) }
{
    match limited(parts, acting, asked) {
        Ok(()) => step(parts, acting, asked),
        Err(reply) => Ok(Grant::Refused(reply)),
    }
}
