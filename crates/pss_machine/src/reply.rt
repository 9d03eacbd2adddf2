// What a command is replied.

use crate::StateName;
use pss_base::{Bytes, Pid, Pids};
use type_layout::{HomeNo, Names};

/// The reply to a line. Those from `Done` to `History` say that the command did what it asked for.
#[derive(Drop)]
pub enum Reply {
    Done,
    /// The session has this entry for the object.
    Entry {
        entry: u32,
        pid: Pid,
    },
    /// The object, for which no entry was made.
    Reference(Pid),
    /// The object, and its serial by itself.
    PidAndShort(Pid),
    /// The text of a value.
    Val(Bytes),
    Truth(bool),
    Count(u64),
    State(StateName),
    HomeFound {
        home: HomeNo,
        name: Bytes,
    },
    /// The number of objects, and the first 256 by serial.
    List {
        count: u64,
        pids: Pids,
    },
    Stat {
        sessions: u64,
        transactions: u64,
        entries: u64,
        attached: u64,
        bodies: u64,
        locks: u64,
        commits: u64,
        objects: u64,
    },
    /// The number of commits, and the texts of the last 64, oldest first.
    History {
        commits: u64,
        members: Names,
    },
    /// The line is not of the grammar: the column of the first word that cannot stand, or one past the line's end.
    Err(u32),
    NoSession,
    NoTransaction,
    /// The name is in use.
    Exists,
    /// As many sessions are there as may be.
    Sessions,
    /// As many transactions are there as may be.
    Transactions,
    /// The session is of the other kind.
    Kind,
    /// The session is not in the state that the command wants.
    NoTx,
    /// The session is associated with the transaction of this name.
    Assoc(Bytes),
    /// The session of this name is active or suspended with the transaction.
    StillOpen(Bytes),
    NoEntry,
    NoHome,
    NoKey,
    NoFactory,
    NoMember,
    /// The member is no reference.
    NotRef,
    /// The column of the first value that does not read, is too much, or is missing.
    BadValue(u32),
    ReadOnly,
    /// The owner has changed as many objects as it may.
    Many,
    /// No serial is left.
    Serials,
    /// The session has as many entries as it may.
    Entries,
    /// The owner of this name has a lock that clashes with what the command needs.
    Busy(Bytes),
    NotFound,
    /// The object is not there.
    Gone(Pid),
    /// The member refers to nothing.
    Nil,
    /// Another object holds the key of this name.
    Duplicate(Bytes),
    /// The record would have more than 8,000 octets.
    TooLarge,
    /// The transaction was marked by `end S fail`; its changes are gone.
    RolledBack,
    /// The committed objects would take more octets than they may.
    Full,
}
