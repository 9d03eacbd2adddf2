// The first words of commands.
ghost use Rattle.std.specs.Prelude.{◌≡◌, IfSome, IsSome};
ghost use Rattle.std.specs.Option.{option_map};
ghost use Rattle.script_text.specs.Meaning as meaning;
ghost use Rattle.script_text.specs.Meaning.{verb_text};
ghost use Rattle.script_text.specs.inner.Likely as likely;

/// The verbs with no other word.
#[derive(Clone, Copy, Drop)]
pub enum AloneVerb {
    Checkpoint,
    Stat,
    History,
}

/// The verbs that name a session alone.
#[derive(Clone, Copy, Drop)]
pub enum SessionVerb {
    Close,
    Suspend,
    Status,
    FreeAll,
    Flush,
    Refresh,
}

/// The verbs that name a transaction alone.
#[derive(Clone, Copy, Drop)]
pub enum TransactionVerb {
    Commit,
    Rollback,
}

/// The verbs that name a session and a home.
#[derive(Clone, Copy, Drop)]
pub enum HomeVerb {
    Home,
    Count,
    List,
}

/// The verbs that name a session, a home, and a factory or a key, and have values.
#[derive(Clone, Copy, Drop)]
pub enum KeyVerb {
    Make,
    Find,
    FindRef,
}

/// The verbs that name a session and an entry.
#[derive(Clone, Copy, Drop)]
pub enum EntryVerb {
    Exists,
    Destroy,
    PidOf,
    Dup,
    Release,
}

/// The verbs that name a session, an entry and a member.
#[derive(Clone, Copy, Drop)]
pub enum MemberVerb {
    Get,
    Follow,
}

/// The first word of a command, which tells what stands behind it.
#[derive(Clone, Copy, Drop)]
pub enum Verb {
    Open,
    Begin,
    Start,
    End,
    Create,
    Pid,
    Short,
    Set,
    Alone(AloneVerb),
    Session(SessionVerb),
    Transaction(TransactionVerb),
    Home(HomeVerb),
    Key(KeyVerb),
    Entry(EntryVerb),
    Member(MemberVerb),
}

// A verb, and the word that it is.
#[derive(Clone, Copy)]
struct Candidate {
    text: &'static [u8],
    verb: Verb,
}

fn spelled(text: &'static [u8], verb: Verb) -> Option<Candidate>
    ensures same { IfSome result (λ found. (found.text.now ≡ text.now) × (found.verb ≡ verb)) }
    ensures some { IsSome result }
{
    Some(Candidate { text, verb })
}

fn of_three(first: u8) -> Option<Candidate>
    ensures text { IfSome result (λ found. found.text.now ≡ verb_text found.verb) }
    ensures verb { option_map (λ found. found.verb) result ≡ likely.of_three first }
{
    match first {
        b'd' => spelled(b"dup", Verb::Entry(EntryVerb::Dup)),
        b'e' => spelled(b"end", Verb::End),
        b'g' => spelled(b"get", Verb::Member(MemberVerb::Get)),
        b'p' => spelled(b"pid", Verb::Pid),
        b's' => spelled(b"set", Verb::Set),
        _ => None,
    }
}

fn of_four(first: u8) -> Option<Candidate>
    ensures text { IfSome result (λ found. found.text.now ≡ verb_text found.verb) }
    ensures verb { option_map (λ found. found.verb) result ≡ likely.of_four first }
{
    match first {
        b'f' => spelled(b"find", Verb::Key(KeyVerb::Find)),
        b'h' => spelled(b"home", Verb::Home(HomeVerb::Home)),
        b'l' => spelled(b"list", Verb::Home(HomeVerb::List)),
        b'm' => spelled(b"make", Verb::Key(KeyVerb::Make)),
        b'o' => spelled(b"open", Verb::Open),
        b's' => spelled(b"stat", Verb::Alone(AloneVerb::Stat)),
        _ => None,
    }
}

fn of_five(first: u8, third: u8) -> Option<Candidate>
    ensures text { IfSome result (λ found. found.text.now ≡ verb_text found.verb) }
    ensures verb { option_map (λ found. found.verb) result ≡ likely.of_five first third }
{
    match first {
        b'b' => spelled(b"begin", Verb::Begin),
        b'c' if third == b'o' => spelled(b"close", Verb::Session(SessionVerb::Close)),
        b'c' => spelled(b"count", Verb::Home(HomeVerb::Count)),
        b'f' => spelled(b"flush", Verb::Session(SessionVerb::Flush)),
        b'p' => spelled(b"pidof", Verb::Entry(EntryVerb::PidOf)),
        b's' if third == b'a' => spelled(b"start", Verb::Start),
        b's' => spelled(b"short", Verb::Short),
        _ => None,
    }
}

fn of_six(first: u8, third: u8) -> Option<Candidate>
    ensures text { IfSome result (λ found. found.text.now ≡ verb_text found.verb) }
    ensures verb { option_map (λ found. found.verb) result ≡ likely.of_six first third }
{
    match first {
        b'c' if third == b'm' => spelled(b"commit", Verb::Transaction(TransactionVerb::Commit)),
        b'c' => spelled(b"create", Verb::Create),
        b'e' => spelled(b"exists", Verb::Entry(EntryVerb::Exists)),
        b'f' => spelled(b"follow", Verb::Member(MemberVerb::Follow)),
        b's' => spelled(b"status", Verb::Session(SessionVerb::Status)),
        _ => None,
    }
}

fn of_seven(first: u8, third: u8) -> Option<Candidate>
    ensures text { IfSome result (λ found. found.text.now ≡ verb_text found.verb) }
    ensures verb { option_map (λ found. found.verb) result ≡ likely.of_seven first third }
{
    match first {
        b'd' => spelled(b"destroy", Verb::Entry(EntryVerb::Destroy)),
        b'f' if third == b'n' => spelled(b"findref", Verb::Key(KeyVerb::FindRef)),
        b'f' => spelled(b"freeall", Verb::Session(SessionVerb::FreeAll)),
        b'h' => spelled(b"history", Verb::Alone(AloneVerb::History)),
        b'r' if third == b'l' => spelled(b"release", Verb::Entry(EntryVerb::Release)),
        b'r' => spelled(b"refresh", Verb::Session(SessionVerb::Refresh)),
        b's' => spelled(b"suspend", Verb::Session(SessionVerb::Suspend)),
        _ => None,
    }
}

// The verb that a word of at least three bytes may be.
fn likely(word: &[u8]) -> Option<Candidate>
    ensures text { IfSome result (λ found. found.text.now ≡ verb_text found.verb) }
    ensures verb { option_map (λ found. found.verb) result ≡ likely.likely word.now }
{
    let (first, third) = (*word.first()?, *word.get(2)?);
    match word.len() {
        3 => of_three(first),
        4 => of_four(first),
        5 => of_five(first, third),
        6 => of_six(first, third),
        7 => of_seven(first, third),
        8 => spelled(b"rollback", Verb::Transaction(TransactionVerb::Rollback)),
        10 => spelled(b"checkpoint", Verb::Alone(AloneVerb::Checkpoint)),
        _ => None,
    }
}

/// The verb that a word is, told by its length and first byte.
pub fn verb_of(word: &[u8]) -> Option<Verb>
    ensures { result ≡ meaning.verb_of word.now }
{
    let found = likely(word)?;
    if found.text == word {
        Some(found.verb)
    } else {
        None
    }
}
