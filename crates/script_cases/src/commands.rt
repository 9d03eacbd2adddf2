// What lines are read as, in words.
ghost use Rattle.std.specs.Prelude.{◌≤◌, length};

use itoa::Buffer;
use pss_base::{Bytes, NoMemory, Pid, append_pid};
use pss_machine::{Command, Rest, Text};
use script_text::{CommandFault, read_command};

fn show_number(out: &mut Bytes, number: u64) -> Result<(), NoMemory> {
    out.push(b' ')?;
    out.extend(Buffer::new().format(number).as_bytes())
}

// The name of a variant and its words.
fn show(out: &mut Bytes, name: &[u8], words: &[&Text<'_>]) -> Result<(), NoMemory> {
    out.extend(name)?;
    for word in words {
        out.push(b' ')?;
        out.extend(word.as_slice())?;
    }
    Ok(())
}

fn show_choices(
    out: &mut Bytes,
    name: &[u8],
    word: &Text<'_>,
    choices: &[bool],
) -> Result<(), NoMemory> {
    show(out, name, &[word])?;
    for choice in choices {
        out.extend(if *choice { b" yes" } else { b" no" })?;
    }
    Ok(())
}

// The number of an entry or a serial stands last.
fn show_numbered(
    out: &mut Bytes,
    name: &[u8],
    words: &[&Text<'_>],
    number: u64,
) -> Result<(), NoMemory> {
    show(out, name, words)?;
    show_number(out, number)
}

fn show_object(out: &mut Bytes, words: &[&Text<'_>], pid: Pid) -> Result<(), NoMemory> {
    show(out, b"Pid", words)?;
    out.push(b' ')?;
    append_pid(out, pid)
}

// The rest of the line stands last, as its column and its text behind `|`.
fn show_rest(out: &mut Bytes, rest: &Rest<'_>) -> Result<(), NoMemory> {
    show_number(out, u64::from(rest.column))?;
    out.push(b'|')?;
    out.extend(rest.text.as_slice())
}

fn show_values(
    out: &mut Bytes,
    name: &[u8],
    words: &[&Text<'_>],
    rest: &Rest<'_>,
) -> Result<(), NoMemory> {
    show(out, name, words)?;
    show_rest(out, rest)
}

fn show_set(
    out: &mut Bytes,
    words: &[&Text<'_>],
    number: u64,
    rest: &Rest<'_>,
) -> Result<(), NoMemory> {
    show_numbered(out, b"Set", words, number)?;
    show_rest(out, rest)
}

fn show_command(out: &mut Bytes, command: &Command<'_>) -> Result<(), NoMemory> {
    match command {
        Command::OpenSession { s, tx, write } => show_choices(
            out,
            b"OpenSession",
            s,
            &[*tx, *write],
        ),
        Command::Close { s } => show(out, b"Close", &[s]),
        Command::Begin { t, serializable } => show_choices(out, b"Begin", t, &[*serializable]),
        Command::Start { s, t } => show(out, b"Start", &[s, t]),
        Command::Suspend { s } => show(out, b"Suspend", &[s]),
        Command::End { s, ok } => show_choices(out, b"End", s, &[*ok]),
        Command::Status { s } => show(out, b"Status", &[s]),
        Command::Commit { t } => show(out, b"Commit", &[t]),
        Command::Rollback { t } => show(out, b"Rollback", &[t]),
        Command::Home { s, home } => show(out, b"Home", &[s, home]),
        Command::Create { s, home, values } => show_values(out, b"Create", &[s, home], values),
        Command::Make {
            s,
            home,
            factory,
            values,
        } => show_values(out, b"Make", &[s, home, factory], values),
        Command::Find {
            s,
            home,
            key,
            values,
        } => show_values(out, b"Find", &[s, home, key], values),
        Command::FindRef {
            s,
            home,
            key,
            values,
        } => show_values(out, b"FindRef", &[s, home, key], values),
        Command::Pid { s, pid } => show_object(out, &[s], *pid),
        Command::Short { s, home, serial } => show_numbered(out, b"Short", &[s, home], *serial),
        Command::Exists { s, entry } => show_numbered(out, b"Exists", &[s], *entry),
        Command::Get { s, entry, member } => show_numbered(out, b"Get", &[s, member], *entry),
        Command::Set {
            s,
            entry,
            member,
            value,
        } => show_set(out, &[s, member], *entry, value),
        Command::Destroy { s, entry } => show_numbered(out, b"Destroy", &[s], *entry),
        Command::Follow { s, entry, member } => show_numbered(out, b"Follow", &[s, member], *entry),
        Command::Count { s, home } => show(out, b"Count", &[s, home]),
        Command::List { s, home } => show(out, b"List", &[s, home]),
        Command::PidOf { s, entry } => show_numbered(out, b"PidOf", &[s], *entry),
        Command::Dup { s, entry } => show_numbered(out, b"Dup", &[s], *entry),
        Command::Release { s, entry } => show_numbered(out, b"Release", &[s], *entry),
        Command::FreeAll { s } => show(out, b"FreeAll", &[s]),
        Command::Flush { s } => show(out, b"Flush", &[s]),
        Command::Refresh { s } => show(out, b"Refresh", &[s]),
        Command::Checkpoint => show(out, b"Checkpoint", &[]),
        Command::Stat => show(out, b"Stat", &[]),
        Command::History => show(out, b"History", &[]),
    }
}

fn show_column(out: &mut Bytes, column: u32) -> Result<(), NoMemory> {
    out.extend(b"column")?;
    show_number(out, u64::from(column))
}

/// Adds what a line is read as, in words.
pub fn append_said(out: &mut Bytes, line: &[u8]) -> Result<(), NoMemory>
    requires { length line.now ≤ 65536 }
{
    match read_command(line) {
        Ok(Some(command)) => show_command(out, &command),
        Ok(None) => out.extend(b"no reply"),
        Err(CommandFault { column }) => show_column(out, column),
    }
}
