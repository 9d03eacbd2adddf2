// Replies by their names and parts.
use case_lines::{number_of, short_number_of, split_word};
use pss_base::{Bytes, NoMemory, Pids, read_pid};
use pss_machine::{Reply, StateName};
use std::alloc::Global;
use type_layout::{HomeNo, Names};

// Each group of replies that say no more than their names has a function of its own, since a choice among all of them
// is dear to prove.

fn missing_reply(name: &[u8]) -> Option<Reply> {
    match name {
        b"NoSession" => Some(Reply::NoSession),
        b"NoTransaction" => Some(Reply::NoTransaction),
        b"NoEntry" => Some(Reply::NoEntry),
        b"NoHome" => Some(Reply::NoHome),
        b"NoKey" => Some(Reply::NoKey),
        _ => None,
    }
}

fn unknown_reply(name: &[u8]) -> Option<Reply> {
    match name {
        b"NoFactory" => Some(Reply::NoFactory),
        b"NoMember" => Some(Reply::NoMember),
        b"NotRef" => Some(Reply::NotRef),
        b"NotFound" => Some(Reply::NotFound),
        b"Nil" => Some(Reply::Nil),
        _ => None,
    }
}

fn limit_reply(name: &[u8]) -> Option<Reply> {
    match name {
        b"Sessions" => Some(Reply::Sessions),
        b"Transactions" => Some(Reply::Transactions),
        b"Many" => Some(Reply::Many),
        b"Serials" => Some(Reply::Serials),
        b"Entries" => Some(Reply::Entries),
        b"Full" => Some(Reply::Full),
        _ => None,
    }
}

fn state_refusal(name: &[u8]) -> Option<Reply> {
    match name {
        b"Exists" => Some(Reply::Exists),
        b"Kind" => Some(Reply::Kind),
        b"NoTx" => Some(Reply::NoTx),
        b"ReadOnly" => Some(Reply::ReadOnly),
        _ => None,
    }
}

fn end_reply(name: &[u8]) -> Option<Reply> {
    match name {
        b"Done" => Some(Reply::Done),
        b"TooLarge" => Some(Reply::TooLarge),
        b"RolledBack" => Some(Reply::RolledBack),
        _ => None,
    }
}

fn plain_reply(name: &[u8]) -> Option<Reply> {
    missing_reply(name)
        .or(unknown_reply(name))
        .or(limit_reply(name))
        .or(state_refusal(name))
        .or(end_reply(name))
}

// Replies with a text behind them.
fn text_reply(name: &[u8], text: Bytes) -> Option<Reply> {
    match name {
        b"Val" => Some(Reply::Val(text)),
        b"Assoc" => Some(Reply::Assoc(text)),
        b"StillOpen" => Some(Reply::StillOpen(text)),
        b"Busy" => Some(Reply::Busy(text)),
        b"Duplicate" => Some(Reply::Duplicate(text)),
        _ => None,
    }
}

// Replies with an object.
fn object_reply(name: &[u8], parts: &[u8]) -> Option<Reply> {
    let pid = read_pid(parts)?;
    match name {
        b"Reference" => Some(Reply::Reference(pid)),
        b"PidAndShort" => Some(Reply::PidAndShort(pid)),
        b"Gone" => Some(Reply::Gone(pid)),
        _ => None,
    }
}

fn entry_reply(parts: &[u8]) -> Option<Reply> {
    let (entry, pid) = split_word(parts);
    Some(Reply::Entry {
        entry: short_number_of(entry)?,
        pid: read_pid(pid)?,
    })
}

fn truth_reply(word: &[u8]) -> Option<Reply> {
    match word {
        b"yes" => Some(Reply::Truth(true)),
        b"no" => Some(Reply::Truth(false)),
        _ => None,
    }
}

fn state_reply(name: &[u8]) -> Option<Reply> {
    match name {
        b"NoTransaction" => Some(Reply::State(StateName::NoTransaction)),
        b"Active" => Some(Reply::State(StateName::Active)),
        b"Suspended" => Some(Reply::State(StateName::Suspended)),
        b"Ending" => Some(Reply::State(StateName::Ending)),
        _ => None,
    }
}

// The numbers of a reply to `stat`, as many as are written.
fn counts_of(parts: &[u8]) -> [u64; 8] {
    let mut counts = [0; 8];
    for (count, word) in counts.iter_mut().zip(parts.split(|byte| *byte == b' ')) {
        *count = number_of(word).unwrap_or(0);
    }
    counts
}

fn stat_reply(parts: &[u8]) -> Reply {
    let [
        sessions,
        transactions,
        entries,
        attached,
        bodies,
        locks,
        commits,
        objects,
    ] = counts_of(parts);
    Reply::Stat {
        sessions,
        transactions,
        entries,
        attached,
        bodies,
        locks,
        commits,
        objects,
    }
}

fn pids_of(alloc: Global, parts: &[u8]) -> Result<Pids, NoMemory> {
    let mut pids = Pids::new(alloc);
    for word in parts.split(|byte| *byte == b' ') {
        if let Some(pid) = read_pid(word) {
            pids.push(pid)?;
        }
    }
    Ok(pids)
}

fn names_of(alloc: Global, parts: &[u8]) -> Result<Names, NoMemory> {
    let mut names = Names::new(alloc);
    for word in parts.split(|byte| *byte == b' ') {
        if !word.is_empty() {
            names.push(Bytes::from_slice(alloc, word)?)?;
        }
    }
    Ok(names)
}

// Replies with a number.
fn number_reply(name: &[u8], parts: &[u8]) -> Option<Reply> {
    match name {
        b"Count" => Some(Reply::Count(number_of(parts)?)),
        b"Err" => Some(Reply::Err(short_number_of(parts)?)),
        b"BadValue" => Some(Reply::BadValue(short_number_of(parts)?)),
        _ => None,
    }
}

fn other_reply(name: &[u8], parts: &[u8]) -> Option<Reply> {
    match name {
        b"Entry" => entry_reply(parts),
        b"Truth" => truth_reply(parts),
        b"State" => state_reply(parts),
        b"Stat" => Some(stat_reply(parts)),
        _ => None,
    }
}

fn home_reply(alloc: Global, parts: &[u8]) -> Result<Option<Reply>, NoMemory> {
    let (number, name) = split_word(parts);
    match short_number_of(number) {
        Some(number) => Ok(Some(Reply::HomeFound {
            home: HomeNo(number),
            name: Bytes::from_slice(alloc, name)?,
        })),
        None => Ok(None),
    }
}

fn list_reply(alloc: Global, parts: &[u8]) -> Result<Option<Reply>, NoMemory> {
    let (number, rest) = split_word(parts);
    match number_of(number) {
        Some(count) => Ok(Some(Reply::List {
            count,
            pids: pids_of(alloc, rest)?,
        })),
        None => Ok(None),
    }
}

fn history_reply(alloc: Global, parts: &[u8]) -> Result<Option<Reply>, NoMemory> {
    let (number, rest) = split_word(parts);
    match number_of(number) {
        Some(commits) => Ok(Some(Reply::History {
            commits,
            members: names_of(alloc, rest)?,
        })),
        None => Ok(None),
    }
}

fn named_text_reply(alloc: Global, name: &[u8], text: &[u8]) -> Result<Option<Reply>, NoMemory> {
    Ok(text_reply(name, Bytes::from_slice(alloc, text)?))
}

// Replies that take memory.
fn owning_reply(alloc: Global, name: &[u8], parts: &[u8]) -> Result<Option<Reply>, NoMemory> {
    match name {
        b"HomeFound" => home_reply(alloc, parts),
        b"List" => list_reply(alloc, parts),
        b"History" => history_reply(alloc, parts),
        _ => named_text_reply(alloc, name, parts),
    }
}

/// The reply of a name with its parts, in the order of its declaration; none where there is no such reply.
pub fn reply_of(alloc: Global, name: &[u8], parts: &[u8]) -> Result<Option<Reply>, NoMemory> {
    let plain = plain_reply(name).or(object_reply(name, parts));
    let reply = plain
        .or(number_reply(name, parts))
        .or(other_reply(name, parts));
    match reply {
        Some(reply) => Ok(Some(reply)),
        None => owning_reply(alloc, name, parts),
    }
}
