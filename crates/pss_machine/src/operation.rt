// Operations on the catalog.

use pss_base::{Bytes, Pid};
use type_layout::{HomeNo, KeyNo, Record, Value};

/// What an owner asks of the catalog as it sees it. Members are numbers of the home's layout, from 0.
#[derive(Drop)]
pub enum Op {
    /// Makes an object of a home under a new serial.
    Create {
        serial: u64,
        home: HomeNo,
        value: Record,
    },
    /// The object of a home, or of one derived from it, that holds a key with these bytes.
    FindKey {
        home: HomeNo,
        key: KeyNo,
        bytes: Bytes,
    },
    /// The object of an identifier, whose home and serial may be any.
    FindPid {
        pid: Pid,
    },
    /// The object of a serial, where its home is of the family of this one.
    FindShort {
        home: HomeNo,
        serial: u64,
    },
    /// Whether the object is there.
    Exists {
        pid: Pid,
    },
    /// The value of a member.
    Get {
        pid: Pid,
        member: u32,
    },
    /// Gives a member a value.
    Set {
        pid: Pid,
        member: u32,
        value: Value,
    },
    /// Removes the object.
    Destroy {
        pid: Pid,
    },
    /// The object that a member refers to.
    Follow {
        pid: Pid,
        member: u32,
    },
    /// How many objects a home and those derived from it have.
    Count {
        home: HomeNo,
    },
    /// How many these are, and the first of them by serial.
    List {
        home: HomeNo,
    },
}
