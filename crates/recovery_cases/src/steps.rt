// Steps of a store that is mounted.
ghost use Rattle.std.specs.Prelude.{◌≡◌, ◌≤◌, IsTrue, IfOk, length};
ghost use Rattle.std.specs.List.{AllByRecursion};
ghost use Rattle.page_format.specs.Objects.{IsRightPut};
ghost use Rattle.pss_recovery.specs.Mounted.{MayFollow};

use case_lines::{number_of, short_number_of, split_word};
use pss_base::{Bytes, NoMemory, Put, Puts};
use pss_recovery::{Body, copy_puts};
use std::alloc::Global;

/// A record is told with at most so many octets.
const LONGEST_FILL: u64 = 8001;

/// A step.
#[derive(Drop)]
pub enum Step {
    Commit(Body),
    Checkpoint,
}

// A record of so many octets whose one member is a text: nothing is unset, four octets of its length with the NUL at its end, and letters.
fn record_of(alloc: Global, count: u64, letter: u8) -> Result<Bytes, NoMemory>
    requires { count ≤ LONGEST_FILL }
{
    let mut record = Bytes::new(alloc);
    record.extend(&[0; 4])?;
    record.extend(&(count.saturating_sub(8) as u32).to_be_bytes())?;
    for _ in 9..count {
        record.push(letter)?;
    }
    record.push(0)?;
    Ok(record)
}

/// `fill SERIAL HOME COUNT`: a change to a record of so many octets.
pub fn fill(alloc: Global, puts: &mut Puts, rest: &[u8]) -> Result<(), NoMemory> {
    let (serial, rest) = split_word(rest);
    let (home, count) = split_word(rest);
    let serial = number_of(serial).unwrap_or(0);
    let count = number_of(count).unwrap_or(0).min(LONGEST_FILL);
    let record = record_of(alloc, count, b'a' + (serial % 26) as u8)?;
    puts.push(Put {
        home: short_number_of(home).unwrap_or(0),
        serial,
        bytes: Some(record),
    })
}

fn is_right(put: &Put) -> bool
    ensures { IsTrue result → IsRightPut put.now }
{
    match &put.bytes {
        Some(bytes) => {
            let len = bytes.as_slice().len();
            0 < len && len <= 8000
        }
        None => true,
    }
}

fn are_right(puts: &[Put]) -> bool
    ensures { IsTrue result → AllByRecursion IsRightPut puts.now }
{
    for put in puts {
        if !is_right(put) {
            return false;
        }
    }
    true
}

/// Whether a body may come next: what `Store::prepare` asks of it.
pub fn may_follow(next: u64, body: &Body) -> bool
    ensures { IsTrue result → MayFollow next body.now }
{
    next <= body.next && body.puts.as_slice().len() <= 256 && are_right(body.puts.as_slice())
}

/// A copy of a body.
pub fn copy_of(alloc: Global, body: &Body) -> Result<Body, NoMemory>
    ensures { IfOk result (λ copy. copy ≡ body.now) }
{
    Ok(Body {
        next: body.next,
        puts: copy_puts(alloc, body.puts.as_slice())?,
    })
}
