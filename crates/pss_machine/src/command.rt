// What a line of a script asks for.

use crate::Text;
use pss_base::Pid;

/// The rest of a line directly behind one of its words, blanks included.
#[derive(Drop)]
pub struct Rest<'a> {
    /// The column at which it begins, from 1.
    pub column: u32,
    pub text: Text<'a>,
}

/// A command. `s` and `t` are the names of a session and of a transaction; `home`, `factory`, `key` and `member` are
/// words as they stand in the line, which may name nothing; `entry` is the number behind `i`. The words are lent by the line.
#[derive(Drop)]
pub enum Command<'a> {
    /// `open S basic|tx ro|rw`
    OpenSession {
        s: Text<'a>,
        tx: bool,
        write: bool,
    },
    Close {
        s: Text<'a>,
    },
    /// `begin T SERIALIZABLE|READ_COMMITTED`
    Begin {
        t: Text<'a>,
        serializable: bool,
    },
    Start {
        s: Text<'a>,
        t: Text<'a>,
    },
    Suspend {
        s: Text<'a>,
    },
    /// `end S ok|fail`
    End {
        s: Text<'a>,
        ok: bool,
    },
    Status {
        s: Text<'a>,
    },
    Commit {
        t: Text<'a>,
    },
    Rollback {
        t: Text<'a>,
    },
    Home {
        s: Text<'a>,
        home: Text<'a>,
    },
    Create {
        s: Text<'a>,
        home: Text<'a>,
        values: Rest<'a>,
    },
    Make {
        s: Text<'a>,
        home: Text<'a>,
        factory: Text<'a>,
        values: Rest<'a>,
    },
    Find {
        s: Text<'a>,
        home: Text<'a>,
        key: Text<'a>,
        values: Rest<'a>,
    },
    FindRef {
        s: Text<'a>,
        home: Text<'a>,
        key: Text<'a>,
        values: Rest<'a>,
    },
    Pid {
        s: Text<'a>,
        pid: Pid,
    },
    Short {
        s: Text<'a>,
        home: Text<'a>,
        serial: u64,
    },
    Exists {
        s: Text<'a>,
        entry: u64,
    },
    Get {
        s: Text<'a>,
        entry: u64,
        member: Text<'a>,
    },
    Set {
        s: Text<'a>,
        entry: u64,
        member: Text<'a>,
        value: Rest<'a>,
    },
    Destroy {
        s: Text<'a>,
        entry: u64,
    },
    Follow {
        s: Text<'a>,
        entry: u64,
        member: Text<'a>,
    },
    Count {
        s: Text<'a>,
        home: Text<'a>,
    },
    List {
        s: Text<'a>,
        home: Text<'a>,
    },
    PidOf {
        s: Text<'a>,
        entry: u64,
    },
    Dup {
        s: Text<'a>,
        entry: u64,
    },
    Release {
        s: Text<'a>,
        entry: u64,
    },
    FreeAll {
        s: Text<'a>,
    },
    Flush {
        s: Text<'a>,
    },
    Refresh {
        s: Text<'a>,
    },
    Checkpoint,
    Stat,
    History,
}
