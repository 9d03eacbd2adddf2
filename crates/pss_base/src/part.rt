// What is read of a source up to the next line feed.
ghost use Rattle.std.specs.Prelude.{◌≡◌, ◌≤◌, ◌-◌, ◌==◌, ◌++◌, [], IfOk, IfSome, MatchOption, OnOk, OnErr, IfErr, IsTrue, Some, true, position, take};
ghost use Rattle.std.specs.Io.KnownBytes.{prepend_known};
ghost use Rattle.pss_base.specs.Causes.{HasCauseIf};
ghost use Rattle.pss_base.specs.Reading.{holds_line};
ghost use Rattle.pss_base.specs.Parts.{PartOf, StopsAt, is_stopped_by_fault, IsPiece, TakesPiece, StopsIn};

use crate::ahead::Ahead;
use crate::keep::extend_within;
use crate::{Bytes, NoMemory, Source};
use std::simd::prelude::*;

/// The greatest number of bytes of a line that is handed out, without its line feed.
pub const LONGEST_LINE: u64 = 65536;

/// What was read of a line.
#[derive(Drop)]
pub struct Part {
    /// Its first bytes, at most `LONGEST_LINE`.
    pub text: Bytes,
    /// How many it has without a line feed.
    pub count: u64,
    /// How many it has with its line feed.
    pub size: u64,
    /// Whether it has one.
    pub ended: bool,
}

/// Why no line was read.
#[derive(Drop)]
pub enum Stop {
    Limit,
    ReadFault,
    NoMemory,
}

// What some bytes have of their first line.
#[derive(Clone, Copy, Drop)]
struct Piece {
    // How many bytes without a line feed.
    len: usize,
    // How many with the line feed.
    size: usize,
    // Whether there is one.
    ended: bool,
}

// So many bytes are looked at together: most lines are shorter.
const NEAR: usize = 32;

// Where the first line feed stands, if it is near.
#[inline(always)]
fn feed_near(bytes: &[u8]) -> Option<usize>
    ensures { IfSome result (λ at. position (λ b. b == 10) bytes.now ≡ Some at) }
{
    if bytes.len() < NEAR {
        return None;
    }
    let feeds = u8x32::from_slice(bytes)
        .simd_eq(u8x32::splat(b'\n'))
        .to_bitmask();
    if feeds == 0 {
        return None;
    }
    Some(feeds.trailing_zeros() as usize)
}

// Up to the first line feed, if it is near.
#[inline(always)]
fn piece_near(bytes: &[u8]) -> Option<Piece>
    ensures { IfSome result (λ piece. IsPiece piece bytes.now × (piece.ended ≡ true)) }
{
    match feed_near(bytes) {
        Some(len) => Some(Piece {
            len,
            size: len + 1,
            ended: true,
        }),
        None => None,
    }
}

// Where the first line feed stands.
fn feed_in(bytes: &[u8]) -> Option<usize>
    ensures { result ≡ position (λ b. b == 10) bytes.now }
{
    bytes.iter().position(|b| *b == b'\n')
}

// Up to the first line feed, or all.
fn piece_of(bytes: &[u8]) -> Piece
    ensures { IsPiece result bytes.now }
{
    match feed_in(bytes) {
        Some(len) => Piece {
            len,
            size: len + 1,
            ended: true,
        },
        None => Piece {
            len: bytes.len(),
            size: bytes.len(),
            ended: false,
        },
    }
}

// Adds to a line that has so many bytes what is kept of the next ones.
fn keep(text: &mut Bytes, count: u64, bytes: &[u8]) -> Result<(), NoMemory>
    ensures ok { OnOk result (text.new ≡ text.old ++ take (65536 - count) bytes.now) }
    ensures err { OnErr result (text.new ≡ text.old) }
{
    extend_within(text, LONGEST_LINE.saturating_sub(count) as usize, bytes)
}

// Takes what the bytes ahead have of a line, of which so many came before.
fn take_piece(ahead: &mut Ahead, text: &mut Bytes, count: u64, most: u64) -> Result<Piece, Stop>
    requires { count ≤ most }
    ensures ok { IfOk result (λ piece. TakesPiece piece count most ahead.old ahead.new text.old text.new) }
    ensures err { IfErr result (λ stop. StopsIn stop (most - count) ahead.old ahead.new) }
{
    let room = most - count;
    let piece = piece_of(ahead.as_slice());
    if piece.size as u64 > room {
        ahead.skip(room as usize + 1);
        return Err(Stop::Limit);
    }
    let Ok(()) = keep(text, count, &ahead.as_slice()[..piece.len]) else {
        return Err(Stop::NoMemory);
    };
    ahead.skip(piece.size);
    Ok(piece)
}

// Takes a line whose end is near into the room of another text. None: its end is not, or there is no memory; nothing was taken.
#[inline(always)]
fn take_near(ahead: &mut Ahead, text: &mut Bytes, most: u64) -> Option<Piece>
    ensures { MatchOption result (ahead.new ≡ ahead.old) (λ piece. TakesPiece piece 0 most ahead.old ahead.new [] text.new × (piece.ended ≡ true)) }
{
    let piece = piece_near(ahead.as_slice())?;
    if piece.size as u64 > most {
        return None;
    }
    text.clear();
    let Ok(()) = keep(text, 0, &ahead.as_slice()[..piece.len]) else {
        return None;
    };
    ahead.skip(piece.size);
    Some(piece)
}

// Reads to the next line feed or the end, piece by piece.
#[inline(never)]
fn read_pieces<C: Source>(
    mut text: Bytes,
    ahead: &mut Ahead,
    source: &mut C,
    most: u64,
) -> Result<Part, Stop>
    ensures ok { IfOk result (λ part. PartOf part most (prepend_known ahead.old (C.left source.old)) (prepend_known ahead.new (C.left source.new))) }
    ensures err { IfErr result (λ stop. StopsAt stop most (prepend_known ahead.old (C.left source.old)) (prepend_known ahead.new (C.left source.new))) }
    ensures empty { IsTrue (is_stopped_by_fault result) → ahead.new ≡ [] }
    ensures unread { IsTrue (holds_line most ahead.old) → source.new ≡ source.old }
    ensures cause { HasCauseIf (C.faults source.old) (C.faults source.new) (is_stopped_by_fault result) }
{
    text.clear();
    let mut count = 0;
    'pieces: loop {
        let Ok(()) = ahead.refill(source) else {
            return Err(Stop::ReadFault);
        };
        if ahead.as_slice().is_empty() {
            return Ok(Part {
                text,
                count,
                size: count,
                ended: false,
            });
        }
        let piece = match take_piece(ahead, &mut text, count, most) {
            Ok(piece) => piece,
            Err(stop) => return Err(stop),
        };
        count += piece.len as u64;
        if piece.ended {
            return Ok(Part {
                text,
                count,
                size: count + 1,
                ended: true,
            });
        }
    }
}

/// Reads to the next line feed or the end, and at most so many bytes, into the room of another text. It reads from the source
/// only where neither a line feed nor a byte too many is ahead.
pub fn read_part<C: Source>(
    mut text: Bytes,
    ahead: &mut Ahead,
    source: &mut C,
    most: u64,
) -> Result<Part, Stop>
    ensures ok { IfOk result (λ part. PartOf part most (prepend_known ahead.old (C.left source.old)) (prepend_known ahead.new (C.left source.new))) }
    ensures err { IfErr result (λ stop. StopsAt stop most (prepend_known ahead.old (C.left source.old)) (prepend_known ahead.new (C.left source.new))) }
    ensures empty { IsTrue (is_stopped_by_fault result) → ahead.new ≡ [] }
    ensures unread { IsTrue (holds_line most ahead.old) → source.new ≡ source.old }
    ensures cause { HasCauseIf (C.faults source.old) (C.faults source.new) (is_stopped_by_fault result) }
{
    match take_near(ahead, &mut text, most) {
        Some(piece) => Ok(Part {
            text,
            count: piece.len as u64,
            size: piece.len as u64 + 1,
            ended: true,
        }),
        None => read_pieces(text, ahead, source, most),
    }
}
