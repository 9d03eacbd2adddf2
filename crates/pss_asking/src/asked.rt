// What is asked, and why nothing is.
ghost use Rattle.std.specs.Prelude.{◌≡◌};
ghost use Rattle.pss_asking.specs.declared.asked.AskFault.TheVariants.{Memory as OfMemory, Refused as OfRefusal};

use pss_base::{NoMemory, Pid};
use pss_machine::Op;

/// What a data command asks: an operation on the catalog, the entry that the command names, and whether the session obtains
/// the object that is found.
#[derive(Drop)]
pub struct Asked {
    pub op: Op,
    pub entry: Option<u32>,
    pub obtains: bool,
}

/// An entry of the session that a command names: its number, and the object that it is for.
#[derive(Clone, Copy, Debug, PartialEq, Eq, Drop)]
pub struct Named {
    pub number: u32,
    pub pid: Pid,
}

/// Why the words of a command ask nothing.
#[derive(Clone, Copy, Debug, PartialEq, Eq, Drop)]
pub enum Refusal {
    /// The session has no entry of this number.
    NoEntry,
    /// The word names no storage home.
    NoHome,
    /// The home has no key of this name.
    NoKey,
    /// The home has no factory of this name.
    NoFactory,
    /// The home of the entry's object has no member of this name.
    NoMember,
    /// The member is no reference.
    NotRef,
    /// The column of the first value that does not read or is one too many, or one past the end where one is missing.
    BadValue(u32),
    /// The session may not change objects, or the member is never set again.
    ReadOnly,
}

/// Why it is not told what a command asks.
#[derive(Clone, Copy, Debug, PartialEq, Eq, Drop)]
pub enum AskFault {
    /// There was no memory. It may come in place of any other answer.
    Memory,
    /// The words ask nothing.
    Refused(Refusal),
}

impl From<NoMemory> for AskFault {
    ghost from_gives = { λ _ fault. fault ≡ OfMemory };

    fn from(_: NoMemory) -> AskFault {
        AskFault::Memory
    }
}

impl From<Refusal> for AskFault {
    ghost from_gives = { λ refusal fault. fault ≡ OfRefusal refusal };

    fn from(refusal: Refusal) -> AskFault {
        AskFault::Refused(refusal)
    }
}
