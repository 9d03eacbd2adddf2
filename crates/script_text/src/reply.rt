// The texts of replies.
ghost use Rattle.std.specs.Prelude.{◌≡◌, ◌++◌, IfOk, OnOk, codes, map};
ghost use Rattle.pss_base.specs.PidText.{pid_text};
ghost use Rattle.script_text.specs.Replies as spec;
ghost use Rattle.script_text.specs.Replies.{text, behind, numbered};

use itoa::Buffer;
use pss_base::{Bytes, NoMemory, Pid, append_pid, append_short_pid};
use pss_machine::{Reply, StateName};
use std::alloc::Global;
use type_layout::HomeNo;

// A word, and a text behind it.
fn append_behind(out: &mut Bytes, word: &[u8], text: &[u8]) -> Result<(), NoMemory>
    ensures { OnOk result (out.new ≡ out.old ++ behind word.now text.now) }
{
    out.extend(word)?;
    out.push(b' ')?;
    out.extend(text)
}

// A word, and a number behind it.
fn append_number(out: &mut Bytes, word: &[u8], number: u64) -> Result<(), NoMemory>
    ensures { OnOk result (out.new ≡ out.old ++ numbered word.now number) }
{
    append_behind(out, word, Buffer::new().format(number).as_bytes())
}

// A word, and an object behind it.
fn append_object(out: &mut Bytes, word: &[u8], pid: Pid) -> Result<(), NoMemory>
    ensures { OnOk result (out.new ≡ out.old ++ behind word.now (pid_text pid)) }
{
    out.extend(word)?;
    out.push(b' ')?;
    append_pid(out, pid)
}

fn append_value(out: &mut Bytes, value: &Bytes) -> Result<(), NoMemory>
    ensures { OnOk result (out.new ≡ out.old ++ text (Reply.Val value.now)) }
{
    out.extend(b"OK ")?;
    out.extend(value.as_slice())
}

fn append_entry(out: &mut Bytes, entry: u32, pid: Pid) -> Result<(), NoMemory>
    ensures { OnOk result (out.new ≡ out.old ++ text (Reply.Entry entry pid)) }
{
    out.extend(b"OK i")?;
    out.extend(Buffer::new().format(entry).as_bytes())?;
    out.push(b' ')?;
    append_pid(out, pid)
}

fn append_pid_and_short(out: &mut Bytes, pid: Pid) -> Result<(), NoMemory>
    ensures { OnOk result (out.new ≡ out.old ++ text (Reply.PidAndShort pid)) }
{
    append_object(out, b"OK", pid)?;
    out.push(b' ')?;
    append_short_pid(out, pid.serial)
}

fn truth_text(truth: bool) -> &'static [u8]
    ensures { result.now ≡ spec.truth_text truth }
{
    if truth { b"TRUE" } else { b"FALSE" }
}

fn state_text(state: StateName) -> &'static [u8]
    ensures { result.now ≡ spec.state_text state }
{
    match state {
        StateName::NoTransaction => b"NO_TRANSACTION",
        StateName::Active => b"ACTIVE",
        StateName::Suspended => b"SUSPENDED",
        StateName::Ending => b"ENDING",
    }
}

fn append_home(out: &mut Bytes, home: HomeNo, name: &Bytes) -> Result<(), NoMemory>
    ensures { OnOk result (out.new ≡ out.old ++ text (Reply.HomeFound home name.now)) }
{
    append_number(out, b"OK", u64::from(home.0))?;
    out.push(b' ')?;
    out.extend(name.as_slice())
}

// Each with a blank in front.
fn append_pids(out: &mut Bytes, pids: &[Pid]) -> Result<(), NoMemory>
    ensures { OnOk result (out.new ≡ out.old ++ spec.each_pid pids.now) }
{
    for pid in pids {
        out.push(b' ')?;
        append_pid(out, *pid)?;
    }
    Ok(())
}

fn append_list(out: &mut Bytes, count: u64, pids: &[Pid]) -> Result<(), NoMemory>
    ensures { OnOk result (out.new ≡ out.old ++ text (Reply.List count pids.now)) }
{
    append_number(out, b"OK", count)?;
    append_pids(out, pids)
}

// Each with a blank in front.
fn append_words(out: &mut Bytes, words: &[Bytes]) -> Result<(), NoMemory>
    ensures { OnOk result (out.new ≡ out.old ++ spec.each_word words.now) }
{
    for word in words {
        out.push(b' ')?;
        out.extend(word.as_slice())?;
    }
    Ok(())
}

fn append_history(out: &mut Bytes, commits: u64, members: &[Bytes]) -> Result<(), NoMemory>
    ensures { OnOk result (out.new ≡ out.old ++ text (Reply.History commits members.now)) }
{
    append_number(out, b"OK", commits)?;
    append_words(out, members)
}

fn append_numbers(out: &mut Bytes, counts: &[(&[u8], u64)]) -> Result<(), NoMemory>
    ensures { OnOk result (out.new ≡ out.old ++ spec.each_number (map (λ count. (count.0.now, count.1)) counts.now)) }
{
    for (word, number) in counts {
        append_number(out, word, *number)?;
    }
    Ok(())
}

fn append_stat(out: &mut Bytes, counts: &[(&[u8], u64)]) -> Result<(), NoMemory>
    ensures { OnOk result (out.new ≡ out.old ++ codes "OK" ++ spec.each_number (map (λ count. (count.0.now, count.1)) counts.now)) }
{
    out.extend(b"OK")?;
    append_numbers(out, counts)
}

/// Adds the text of a reply, without a line feed.
pub fn append_reply(out: &mut Bytes, reply: &Reply) -> Result<(), NoMemory>
    ensures { OnOk result (out.new ≡ out.old ++ text reply.now) }
{
    match reply {
        Reply::Done => out.extend(b"OK"),
        Reply::Entry { entry, pid } => append_entry(out, *entry, *pid),
        Reply::Reference(pid) => append_object(out, b"OK", *pid),
        Reply::PidAndShort(pid) => append_pid_and_short(out, *pid),
        Reply::Val(value) => append_value(out, value),
        Reply::Truth(truth) => append_behind(out, b"OK", truth_text(*truth)),
        Reply::Count(count) => append_number(out, b"OK", *count),
        Reply::State(state) => append_behind(out, b"OK", state_text(*state)),
        Reply::HomeFound { home, name } => append_home(out, *home, name),
        Reply::List { count, pids } => append_list(out, *count, pids.as_slice()),
        Reply::Stat {
            sessions,
            transactions,
            entries,
            attached,
            bodies,
            locks,
            commits,
            objects,
        } => append_stat(
            out,
            &[
                (b" sessions", *sessions),
                (b" transactions", *transactions),
                (b" entries", *entries),
                (b" attached", *attached),
                (b" bodies", *bodies),
                (b" locks", *locks),
                (b" commits", *commits),
                (b" objects", *objects),
            ],
        ),
        Reply::History { commits, members } => append_history(out, *commits, members.as_slice()),
        Reply::Err(column) => append_number(out, b"ERR", u64::from(*column)),
        Reply::NoSession => out.extend(b"NOSESSION"),
        Reply::NoTransaction => out.extend(b"NOTRANSACTION"),
        Reply::Exists => out.extend(b"EXISTS"),
        Reply::Sessions => out.extend(b"SESSIONS"),
        Reply::Transactions => out.extend(b"TRANSACTIONS"),
        Reply::Kind => out.extend(b"KIND"),
        Reply::NoTx => out.extend(b"NOTX"),
        Reply::Assoc(name) => append_behind(out, b"ASSOC", name.as_slice()),
        Reply::StillOpen(name) => append_behind(out, b"OPEN", name.as_slice()),
        Reply::NoEntry => out.extend(b"NOENTRY"),
        Reply::NoHome => out.extend(b"NOHOME"),
        Reply::NoKey => out.extend(b"NOKEY"),
        Reply::NoFactory => out.extend(b"NOFACTORY"),
        Reply::NoMember => out.extend(b"NOMEMBER"),
        Reply::NotRef => out.extend(b"NOTREF"),
        Reply::BadValue(column) => append_number(out, b"BADVALUE", u64::from(*column)),
        Reply::ReadOnly => out.extend(b"READONLY"),
        Reply::Many => out.extend(b"MANY"),
        Reply::Serials => out.extend(b"SERIALS"),
        Reply::Entries => out.extend(b"ENTRIES"),
        Reply::Busy(name) => append_behind(out, b"BUSY", name.as_slice()),
        Reply::NotFound => out.extend(b"NOTFOUND"),
        Reply::Gone(pid) => append_object(out, b"GONE", *pid),
        Reply::Nil => out.extend(b"NIL"),
        Reply::Duplicate(key) => append_behind(out, b"DUPLICATE", key.as_slice()),
        Reply::TooLarge => out.extend(b"TOOLARGE"),
        Reply::RolledBack => out.extend(b"ROLLEDBACK"),
        Reply::Full => out.extend(b"FULL"),
    }
}

/// Room for most replies with their line feed: names, lists and long values alone outgrow it.
const ROOM: usize = 48;

/// The text of a reply, without a line feed.
pub fn print_reply(alloc: Global, reply: &Reply) -> Result<Bytes, NoMemory>
    ensures { IfOk result (λ bytes. bytes ≡ text reply.now) }
{
    let mut out = Bytes::with_room(alloc, ROOM)?;
    append_reply(&mut out, reply)?;
    Ok(out)
}
