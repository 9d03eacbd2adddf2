// Replies are counted.
ghost use Rattle.std.specs.Prelude.{◌≡◌, ◌++◌, ◌<◌, IfOk, OnOk};
ghost use Rattle.people_demo.specs.Tally as plain;

use crate::numbers::append_numbered;
use itoa::Buffer;
use pss_base::{Bytes, NoMemory};
use pss_machine::Reply;
use std::alloc::Global;

/// How many replies there were, how many of them begin with `OK`, and the number that the last one tells, if it tells one.
#[derive(Clone, Copy, Drop)]
pub struct Tally {
    pub replies: u32,
    pub ok: u32,
    pub count: u64,
}

// The text of the reply begins with `OK`.
fn is_ok(reply: &Reply) -> bool
    ensures { result ≡ plain.is_ok reply.now }
{
    match reply {
        Reply::Done => true,
        Reply::Entry { .. } => true,
        Reply::Reference(_) => true,
        Reply::PidAndShort(_) => true,
        Reply::Val(_) => true,
        Reply::Truth(_) => true,
        Reply::Count(_) => true,
        Reply::State(_) => true,
        Reply::HomeFound { .. } => true,
        Reply::List { .. } => true,
        Reply::Stat { .. } => true,
        Reply::History { .. } => true,
        _ => false,
    }
}

fn count_in(reply: &Reply) -> u64
    ensures { result ≡ plain.count_in reply.now }
{
    match reply {
        Reply::Count(count) => *count,
        _ => 0,
    }
}

impl Tally {
    pub fn new() -> Tally
        ensures { result ≡ plain.no_tally }
    {
        Tally {
            replies: 0,
            ok: 0,
            count: 0,
        }
    }

    // One more reply.
    fn add(&mut self, reply: &Reply)
        requires replies { self.old.replies < 4294967295 }
        requires ok { self.old.ok < 4294967295 }
        ensures { self.new ≡ plain.with_reply self.old reply.now }
    {
        self.replies += 1;
        if is_ok(reply) {
            self.ok += 1;
        }
        self.count = count_in(reply);
    }

    /// What a line was answered by, if it was answered.
    pub fn add_answer(&mut self, reply: &Option<Reply>)
        requires replies { self.old.replies < 4294967295 }
        requires ok { self.old.ok < 4294967295 }
        ensures { self.new ≡ plain.with_answer self.old reply.now }
    {
        if let Some(reply) = reply {
            self.add(reply);
        }
    }
}

// What is told of replies.
fn append_replies(line: &mut Bytes, rounds: u32, tally: Tally) -> Result<(), NoMemory>
    ensures { OnOk result (line.new ≡ line.old ++ plain.replies_part rounds tally) }
{
    append_numbered(line, b"demo rounds ", rounds)?;
    append_numbered(line, b" replies ", tally.replies)?;
    append_numbered(line, b" ok ", tally.ok)?;
    Ok(())
}

// What is told of people.
fn append_count(line: &mut Bytes, count: u64) -> Result<(), NoMemory>
    ensures { OnOk result (line.new ≡ line.old ++ plain.count_part count) }
{
    line.extend(b" count ")?;
    line.extend(Buffer::new().format(count).as_bytes())?;
    line.push(b'\n')?;
    Ok(())
}

/// What is spoken of so many rounds, with its line feed.
pub fn print_tally(alloc: Global, rounds: u32, tally: Tally) -> Result<Bytes, NoMemory>
    ensures { IfOk result (λ line. line ≡ plain.demo_line rounds tally) }
{
    let mut line = Bytes::new(alloc);
    append_replies(&mut line, rounds, tally)?;
    append_count(&mut line, tally.count)?;
    Ok(line)
}
