// Sessions, and what their entries stand on.
ghost use Rattle.std.specs.Prelude.{◌≡◌};
ghost use Rattle.pss_machine.specs.Sessions.{active_in, open_in, transaction_of, state_of};

use pss_base::{OwnerNo, SessionNo};

/// Whether a session is an owner itself.
#[derive(Clone, Copy, Debug, PartialEq, Eq, Drop)]
pub enum Kind {
    /// It is this owner, from when it is opened until it is closed.
    Basic(OwnerNo),
    /// It acts for the transaction that it is associated with.
    Transactional,
}

/// Whether a session may change objects.
#[derive(Clone, Copy, Debug, PartialEq, Eq, Drop)]
pub enum Access {
    ReadOnly,
    ReadWrite,
}

/// How a session is associated with a transaction (PSS 2.0; which call leads where is this project's own). A
/// basic session is in none.
#[derive(Clone, Copy, Debug, PartialEq, Eq, Drop)]
pub enum Association {
    NoTransaction,
    /// Its data commands are the transaction's.
    Active(OwnerNo),
    /// It may become active again with the same transaction.
    Suspended(OwnerNo),
    /// Its part of the transaction is done.
    Ending(OwnerNo),
}

impl Association {
    /// Its state, without the transaction.
    #[inline(always)]
    pub fn state(self) -> StateName
        ensures { result ≡ state_of self }
    {
        match self {
            Association::NoTransaction => StateName::NoTransaction,
            Association::Active(_) => StateName::Active,
            Association::Suspended(_) => StateName::Suspended,
            Association::Ending(_) => StateName::Ending,
        }
    }

    /// Its transaction.
    #[inline(always)]
    pub fn transaction(self) -> Option<OwnerNo>
        ensures { result ≡ transaction_of self }
    {
        match self {
            Association::NoTransaction => None,
            Association::Active(owner) => Some(owner),
            Association::Suspended(owner) => Some(owner),
            Association::Ending(owner) => Some(owner),
        }
    }

    /// Its transaction, where it is active.
    #[inline(always)]
    pub fn active(self) -> Option<OwnerNo>
        ensures { result ≡ active_in self }
    {
        match self {
            Association::NoTransaction => None,
            Association::Active(owner) => Some(owner),
            Association::Suspended(_) => None,
            Association::Ending(_) => None,
        }
    }

    /// Its transaction, where it is active or suspended: the transaction's commit waits for the session's end.
    #[inline(always)]
    pub fn open(self) -> Option<OwnerNo>
        ensures { result ≡ open_in self }
    {
        match self {
            Association::NoTransaction => None,
            Association::Active(owner) => Some(owner),
            Association::Suspended(owner) => Some(owner),
            Association::Ending(_) => None,
        }
    }
}

/// The state of an association, without the transaction.
#[derive(Clone, Copy, Debug, PartialEq, Eq, Drop)]
pub enum StateName {
    NoTransaction,
    Active,
    Suspended,
    Ending,
}

/// In which view an object is copied.
#[derive(Clone, Copy, Debug, PartialEq, Eq, Hash, Drop)]
pub enum View {
    /// As it is committed.
    Committed,
    /// As an owner has changed it.
    Own(OwnerNo),
    /// As it was committed when a basic session came to read it.
    Kept(SessionNo),
}
