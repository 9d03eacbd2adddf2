// Lines as commands.
ghost use Rattle.std.specs.Prelude.{◌≡◌, ◌≤◌, ◌∷◌, ◌++◌, length, take, false, IsTrue, IsSome, IfSome, MatchOption, Ok, Err, codes};
ghost use Rattle.std.specs.Int.{to_le_bytes, w32};
ghost use Rattle.pss_machine.specs.declared.command.Command.TheVariants as command;
ghost use Rattle.pss_machine.specs.Run.{Says};
ghost use Rattle.script_text.specs.Words.{begins_word, words, words_in};
ghost use Rattle.script_text.specs.Spelling as spelling;
ghost use Rattle.script_text.specs.Spelling.{Reads, is_silent};
ghost use Rattle.script_text.specs.Telling.{Exactly, Tells};
ghost use Rattle.script_text.specs.Meaning as meaning;
ghost use Rattle.script_text.specs.Meaning.{given, step, OneOf};
ghost use Rattle.script_text.specs.inner.Seen.{seen, seen_word, Gives};

use crate::CommandFault;
use crate::parts::{
    any_in, choice_in, entry_in, name_in, one_entry, one_name, pid_in, rest_in, serial_in,
};
use crate::tail::Tail;
use crate::verb::{
    AloneVerb, EntryVerb, HomeVerb, KeyVerb, MemberVerb, SessionVerb, TransactionVerb, Verb,
    verb_of,
};
use crate::words::{Word, finish, last_word, next_word};
use pss_machine::{Command, Rest, Text};

fn alone<'a>(verb: AloneVerb) -> Command<'a>
    ensures { result ≡ meaning.alone verb }
{
    match verb {
        AloneVerb::Checkpoint => Command::Checkpoint,
        AloneVerb::Stat => Command::Stat,
        AloneVerb::History => Command::History,
    }
}

fn of_session<'a>(verb: SessionVerb, s: Text<'a>) -> Command<'a>
    ensures { result ≡ meaning.of_session verb s.entry }
{
    match verb {
        SessionVerb::Close => Command::Close { s },
        SessionVerb::Suspend => Command::Suspend { s },
        SessionVerb::Status => Command::Status { s },
        SessionVerb::FreeAll => Command::FreeAll { s },
        SessionVerb::Flush => Command::Flush { s },
        SessionVerb::Refresh => Command::Refresh { s },
    }
}

fn of_transaction<'a>(verb: TransactionVerb, t: Text<'a>) -> Command<'a>
    ensures { result ≡ meaning.of_transaction verb t.entry }
{
    match verb {
        TransactionVerb::Commit => Command::Commit { t },
        TransactionVerb::Rollback => Command::Rollback { t },
    }
}

fn of_home<'a>(verb: HomeVerb, s: Text<'a>, home: Text<'a>) -> Command<'a>
    ensures { result ≡ meaning.of_home verb s.entry home.entry }
{
    match verb {
        HomeVerb::Home => Command::Home { s, home },
        HomeVerb::Count => Command::Count { s, home },
        HomeVerb::List => Command::List { s, home },
    }
}

fn of_key<'a>(
    verb: KeyVerb,
    s: Text<'a>,
    home: Text<'a>,
    name: Text<'a>,
    values: Rest<'a>,
) -> Command<'a>
    ensures { result ≡ meaning.of_key verb s.entry home.entry name.entry values.entry }
{
    match verb {
        KeyVerb::Make => Command::Make {
            s,
            home,
            factory: name,
            values,
        },
        KeyVerb::Find => Command::Find {
            s,
            home,
            key: name,
            values,
        },
        KeyVerb::FindRef => Command::FindRef {
            s,
            home,
            key: name,
            values,
        },
    }
}

fn of_entry<'a>(verb: EntryVerb, s: Text<'a>, entry: u64) -> Command<'a>
    ensures { result ≡ meaning.of_entry verb s.entry entry }
{
    match verb {
        EntryVerb::Exists => Command::Exists { s, entry },
        EntryVerb::Destroy => Command::Destroy { s, entry },
        EntryVerb::PidOf => Command::PidOf { s, entry },
        EntryVerb::Dup => Command::Dup { s, entry },
        EntryVerb::Release => Command::Release { s, entry },
    }
}

fn of_member<'a>(verb: MemberVerb, s: Text<'a>, entry: u64, member: Text<'a>) -> Command<'a>
    ensures { result ≡ meaning.of_member verb s.entry entry member.entry }
{
    match verb {
        MemberVerb::Get => Command::Get { s, entry, member },
        MemberVerb::Follow => Command::Follow { s, entry, member },
    }
}

fn read_alone<'a>(verb: AloneVerb, tail: Tail<'a>) -> Result<Command<'a>, CommandFault>
    ensures { Gives (λ c. c) result (meaning.command_in (Verb.Alone verb) (seen tail.entry)) }
{
    finish(tail)?;
    Ok(alone(verb))
}

fn read_session<'a>(verb: SessionVerb, tail: Tail<'a>) -> Result<Command<'a>, CommandFault>
    ensures { Gives (λ c. c) result (meaning.command_in (Verb.Session verb) (seen tail.entry)) }
{
    let (s, tail) = name_in(tail)?;
    finish(tail)?;
    Ok(of_session(verb, s))
}

fn read_transaction<'a>(verb: TransactionVerb, tail: Tail<'a>) -> Result<Command<'a>, CommandFault>
    ensures { Gives (λ c. c) result (meaning.command_in (Verb.Transaction verb) (seen tail.entry)) }
{
    let (t, tail) = name_in(tail)?;
    finish(tail)?;
    Ok(of_transaction(verb, t))
}

fn read_home<'a>(verb: HomeVerb, tail: Tail<'a>) -> Result<Command<'a>, CommandFault>
    ensures { Gives (λ c. c) result (meaning.command_in (Verb.Home verb) (seen tail.entry)) }
{
    let (s, tail) = name_in(tail)?;
    let (home, tail) = any_in(tail)?;
    finish(tail)?;
    Ok(of_home(verb, s, home))
}

fn read_key<'a>(verb: KeyVerb, tail: Tail<'a>) -> Result<Command<'a>, CommandFault>
    ensures { Gives (λ c. c) result (meaning.command_in (Verb.Key verb) (seen tail.entry)) }
{
    let (s, tail) = name_in(tail)?;
    let (home, tail) = any_in(tail)?;
    let (name, tail) = any_in(tail)?;
    Ok(of_key(verb, s, home, name, rest_in(tail)))
}

fn read_entry<'a>(verb: EntryVerb, tail: Tail<'a>) -> Result<Command<'a>, CommandFault>
    ensures { Gives (λ c. c) result (meaning.command_in (Verb.Entry verb) (seen tail.entry)) }
{
    let (s, tail) = name_in(tail)?;
    let (entry, tail) = entry_in(tail)?;
    finish(tail)?;
    Ok(of_entry(verb, s, entry))
}

fn read_member<'a>(verb: MemberVerb, tail: Tail<'a>) -> Result<Command<'a>, CommandFault>
    ensures { Gives (λ c. c) result (meaning.command_in (Verb.Member verb) (seen tail.entry)) }
{
    let (s, tail) = name_in(tail)?;
    let (entry, tail) = entry_in(tail)?;
    let (member, tail) = any_in(tail)?;
    finish(tail)?;
    Ok(of_member(verb, s, entry, member))
}

fn read_open<'a>(tail: Tail<'a>) -> Result<Command<'a>, CommandFault>
    ensures { Gives (λ c. c) result (meaning.command_in Verb.Open (seen tail.entry)) }
{
    let (s, tail) = name_in(tail)?;
    let (tx, tail) = choice_in(tail, b"tx", b"basic")?;
    let (write, tail) = choice_in(tail, b"rw", b"ro")?;
    finish(tail)?;
    Ok(Command::OpenSession { s, tx, write })
}

// Whether a transaction is to be serializable.
fn level_in<'a>(tail: Tail<'a>) -> Result<(bool, Tail<'a>), CommandFault>
    ensures { Gives (λ x. (x.0, seen x.1)) result (step (OneOf (codes "SERIALIZABLE") (codes "READ_COMMITTED")) (seen tail.entry)) }
{
    choice_in(tail, b"SERIALIZABLE", b"READ_COMMITTED")
}

fn read_begin<'a>(tail: Tail<'a>) -> Result<Command<'a>, CommandFault>
    ensures { Gives (λ c. c) result (meaning.command_in Verb.Begin (seen tail.entry)) }
{
    let (t, tail) = name_in(tail)?;
    let (serializable, tail) = level_in(tail)?;
    finish(tail)?;
    Ok(Command::Begin { t, serializable })
}

fn read_start<'a>(tail: Tail<'a>) -> Result<Command<'a>, CommandFault>
    ensures { Gives (λ c. c) result (meaning.command_in Verb.Start (seen tail.entry)) }
{
    let (s, tail) = name_in(tail)?;
    let (t, tail) = name_in(tail)?;
    finish(tail)?;
    Ok(Command::Start { s, t })
}

fn read_end<'a>(tail: Tail<'a>) -> Result<Command<'a>, CommandFault>
    ensures { Gives (λ c. c) result (meaning.command_in Verb.End (seen tail.entry)) }
{
    let (s, tail) = name_in(tail)?;
    let (ok, tail) = choice_in(tail, b"ok", b"fail")?;
    finish(tail)?;
    Ok(Command::End { s, ok })
}

fn read_create<'a>(tail: Tail<'a>) -> Result<Command<'a>, CommandFault>
    ensures { Gives (λ c. c) result (meaning.command_in Verb.Create (seen tail.entry)) }
{
    let (s, tail) = name_in(tail)?;
    let (home, tail) = any_in(tail)?;
    Ok(Command::Create {
        s,
        home,
        values: rest_in(tail),
    })
}

fn read_pid<'a>(tail: Tail<'a>) -> Result<Command<'a>, CommandFault>
    ensures { Gives (λ c. c) result (meaning.command_in Verb.Pid (seen tail.entry)) }
{
    let (s, tail) = name_in(tail)?;
    let (pid, tail) = pid_in(tail)?;
    finish(tail)?;
    Ok(Command::Pid { s, pid })
}

fn read_short<'a>(tail: Tail<'a>) -> Result<Command<'a>, CommandFault>
    ensures { Gives (λ c. c) result (meaning.command_in Verb.Short (seen tail.entry)) }
{
    let (s, tail) = name_in(tail)?;
    let (home, tail) = any_in(tail)?;
    let (serial, tail) = serial_in(tail)?;
    finish(tail)?;
    Ok(Command::Short { s, home, serial })
}

fn read_set<'a>(tail: Tail<'a>) -> Result<Command<'a>, CommandFault>
    ensures { Gives (λ c. c) result (meaning.command_in Verb.Set (seen tail.entry)) }
{
    let (s, tail) = name_in(tail)?;
    let (entry, tail) = entry_in(tail)?;
    let (member, tail) = any_in(tail)?;
    Ok(Command::Set {
        s,
        entry,
        member,
        value: rest_in(tail),
    })
}

// The command of a verb, by what stands behind it.
fn read_behind<'a>(verb: Verb, tail: Tail<'a>) -> Result<Command<'a>, CommandFault>
    ensures { Gives (λ c. c) result (meaning.command_in verb (seen tail.entry)) }
{
    match verb {
        Verb::Open => read_open(tail),
        Verb::Begin => read_begin(tail),
        Verb::Start => read_start(tail),
        Verb::End => read_end(tail),
        Verb::Create => read_create(tail),
        Verb::Pid => read_pid(tail),
        Verb::Short => read_short(tail),
        Verb::Set => read_set(tail),
        Verb::Alone(verb) => read_alone(verb, tail),
        Verb::Session(verb) => read_session(verb, tail),
        Verb::Transaction(verb) => read_transaction(verb, tail),
        Verb::Home(verb) => read_home(verb, tail),
        Verb::Key(verb) => read_key(verb, tail),
        Verb::Entry(verb) => read_entry(verb, tail),
        Verb::Member(verb) => read_member(verb, tail),
    }
}

// The command of a line that begins with this word.
fn read_from<'a>(word: Word<'a>) -> Result<Command<'a>, CommandFault>
    ensures { Gives (λ c. c) result (given (meaning.verb_of word.entry.text.now) (Err word.entry.column) (λ v. meaning.command_in v (seen word.entry.rest))) }
{
    match verb_of(word.text) {
        Some(verb) => read_behind(verb, word.rest),
        None => Err(CommandFault {
            column: word.column,
        }),
    }
}

#[inline(always)]
fn begins_comment(word: &[u8]) -> bool
    ensures { result ≡ spelling.begins_comment word.now }
{
    match word.first() {
        Some(byte) => *byte == b'#',
        None => false,
    }
}

// The first word of a line that has a reply.
#[inline(always)]
fn first_word<'a>(line: &'a [u8]) -> Option<Word<'a>>
    requires { length line.now ≤ 65536 }
    ensures first { MatchOption result (IsTrue (is_silent (words line.now))) (λ word. words line.now ≡ seen_word word ∷ words_in (seen word.rest)) }
    ensures loud { IsSome result → is_silent (words line.now) ≡ false }
{
    let word = next_word(Tail {
        column: 1,
        text: line,
    })?;
    if begins_comment(word.text) {
        None
    } else {
        Some(word)
    }
}

/// The words of a `get`: the name of the session, the number of the entry, and the member.
#[derive(Clone, Copy)]
pub struct GetWords<'a> {
    pub s: &'a [u8],
    pub entry: u64,
    pub member: &'a [u8],
}

// The words behind `get`, each behind one space, and nothing behind them. None: they are written in another way, or spell no
// `get`.
#[inline(always)]
fn get_words<'a>(tail: Tail<'a>) -> Option<GetWords<'a>>
    ensures { IfSome result (λ words. meaning.command_in (Verb.Member MemberVerb.Get) (seen tail.entry) ≡ Ok (command.Get words.s.now words.entry words.member.now)) }
{
    let s = one_name(tail)?;
    let found = one_entry(s.rest)?;
    let member = last_word(found.word.rest)?;
    Some(GetWords {
        s: s.text,
        entry: found.entry,
        member: member.text,
    })
}

// The bytes of `get` and a space as one number, the first one lowest.
const GET_AND_SPACE: u32 = 0x2074_6567;

// The first four bytes as one number, so that they are compared at once.
#[inline(always)]
fn front_of(line: &[u8]) -> u32
    requires { 4 ≤ length line.now }
    ensures { to_le_bytes w32 result ≡ take 4 line.now }
{
    u32::from_le_bytes([line[0], line[1], line[2], line[3]])
}

// What stands behind `get`: a space, and more.
#[inline(always)]
fn behind_get(line: &[u8]) -> Option<&[u8]>
    ensures gets { IfSome result (λ behind. line.now ≡ codes "get" ++ behind.now) }
    ensures spaced { IfSome result (λ behind. begins_word behind.now ≡ false) }
{
    if line.len() >= 4 && front_of(line) == GET_AND_SPACE {
        Some(&line[3..])
    } else {
        None
    }
}

/// The words of a line of at most 65,536 bytes that says a `get` by words with one space between them and nothing else, as
/// programs write it. They are not copied. None: it says something else, or is written in another way.
#[inline(always)]
pub fn read_get<'a>(line: &'a [u8]) -> Option<GetWords<'a>>
    requires { length line.now ≤ 65536 }
    ensures { IfSome result (λ words. meaning.meaning line.now ≡ Says (command.Get words.s.now words.entry words.member.now)) }
{
    let text = behind_get(line)?;
    match get_words(Tail { column: 4, text }) {
        Some(words) => Some(words),
        None => None,
    }
}

/// The command of a line of at most 65,536 bytes. Its words are lent by the line. `None`: the line has no reply, since it has
/// no word or its first one begins with `#`. An error: the line spells no command.
pub fn read_command<'a>(line: &'a [u8]) -> Result<Option<Command<'a>>, CommandFault>
    requires { length line.now ≤ 65536 }
    ensures reads { Tells (Exactly (Reads line.now)) result }
    ensures meaning { Tells (λ said. said ≡ meaning.meaning line.now) result }
{
    let Some(word) = first_word(line) else {
        return Ok(None);
    };
    Ok(Some(read_from(word)?))
}
