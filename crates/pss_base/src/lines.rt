// The lines of a source, one at a time.
ghost use Rattle.std.specs.Prelude.{◌≡◌, ◌≤◌, IsTrue, ◌==◌, if◌then◌else◌};
ghost use Rattle.std.specs.Str.Lines.{strip_carriage_return as without_return};
ghost use Rattle.pss_base.specs.Causes.{HasCauseIf};
ghost use Rattle.pss_base.specs.Parts.{told_of, stopped_by, reading_after};
ghost use Rattle.pss_base.specs.Reading.{new_reading, to_come, NextLine, is_read_fault, goes_on, most_bytes, has_next};

use crate::ahead::Ahead;
use crate::part::{LONGEST_LINE, Part, Stop, read_part};
use crate::{Bytes, Source};
use std::alloc::Global;
use std::marker::Model;
use std::mem::replace;

/// What a call of a reader of lines brings.
#[derive(Drop)]
pub enum LineStep {
    /// The next line, at most 65,536 bytes, without its line feed and without one carriage return in front of that.
    /// What follows the last line feed is a line where it has a byte; its carriage return stays.
    Line(Bytes),
    /// The next line has more than 65,536 bytes in front of its line feed. It was skipped.
    TooLong,
    /// No byte is left.
    End,
    /// A byte follows the greatest number of lines, or the line has not ended within the greatest number of bytes
    /// and a further byte follows.
    Limit,
    /// The source failed.
    ReadFault,
    /// There was no memory for the line.
    NoMemory,
}

/// A reader of the lines of one source. It reads in large pieces, so between its calls it has bytes that the
/// source has no more.
#[derive(Drop)]
pub struct LineReader {
    alloc: Global,
    ahead: Ahead,
    // A text that was given back: the next line takes its room.
    spare: Bytes,
    lines_left: u32,
    bytes_left: u64,
    at_end: bool,
    live: bool,
}

impl Model for LineReader {
    ghost use Rattle.pss_base.specs.Reading.{Reading};

    ghost Value = { Reading };

    ghost view = { λ r. record { ahead = r.ahead; lines_left = r.lines_left; bytes_left = r.bytes_left; at_end = r.at_end; live = r.live } };
}

impl LineReader {
    /// A reader of at most so many lines, of at most so many bytes in all, line feeds counted. It takes no memory.
    pub fn new(alloc: Global, max_lines: u32, max_bytes: u64) -> LineReader
        ensures { result ≡ new_reading max_lines max_bytes }
    {
        LineReader {
            alloc,
            ahead: Ahead::new(),
            spare: Bytes::new(alloc),
            lines_left: max_lines,
            bytes_left: max_bytes,
            at_end: false,
            live: true,
        }
    }

    /// Whether `next` may be called: not after `Limit`, `ReadFault` or `NoMemory`.
    pub fn live(&self) -> bool
        ensures { result ≡ self.now.live }
    {
        self.live
    }

    /// The next line of what is to come: first the bytes that the reader has ahead, then those of the source given.
    /// Pass the same source at each call. The first byte past a limit is told as `Limit`, and a failure of the source
    /// at once, without any line of which a byte is missing. The source is not read where what is ahead shows the
    /// next step: a whole line, a byte past a limit, or the end.
    pub fn next<C: Source>(&mut self, src: &mut C) -> LineStep
        requires { IsTrue self.old.live }
        ensures step { NextLine self.old self.new (to_come self.old (C.left src.old)) (to_come self.new (C.left src.new)) result }
        ensures live { self.new.live ≡ goes_on result }
        ensures unread { IsTrue (has_next self.old) → src.new ≡ src.old }
        ensures cause { HasCauseIf (C.faults src.old) (C.faults src.new) (is_read_fault result) }
    {
        if self.at_end {
            return LineStep::End;
        }
        let most = most_of(self.lines_left, self.bytes_left);
        let room = replace(&mut self.spare, Bytes::new(self.alloc));
        match read_part(room, &mut self.ahead, src, most) {
            Ok(part) => self.take(part),
            Err(stop) => {
                self.live = false;
                stopped(stop)
            }
        }
    }

    /// Takes a step back that is not needed any more: the next line takes the room of its text.
    pub fn give_back(&mut self, step: LineStep)
        ensures { self.new ≡ self.old }
    {
        if let LineStep::Line(text) = step {
            self.spare = text;
        }
    }

    fn take(&mut self, part: Part) -> LineStep
        requires { part.size ≤ most_bytes self.old.lines_left self.old.bytes_left }
        ensures step { result ≡ (if part.size == 0 then LineStep.End else told_of part) }
        ensures new { self.new ≡ reading_after self.old part }
    {
        self.at_end = !part.ended;
        if part.size == 0 {
            return LineStep::End;
        }
        self.lines_left -= 1;
        self.bytes_left -= part.size;
        step_of(part)
    }
}

fn most_of(lines_left: u32, bytes_left: u64) -> u64
    ensures { result ≡ most_bytes lines_left bytes_left }
{
    if lines_left == 0 { 0 } else { bytes_left }
}

fn without_end(mut text: Bytes, ended: bool) -> Bytes
    ensures { result ≡ (if ended then without_return text else text) }
{
    if ended {
        text.strip_carriage_return();
    }
    text
}

// What is told of a line.
fn step_of(part: Part) -> LineStep
    ensures { result ≡ told_of part }
{
    if part.count > LONGEST_LINE {
        LineStep::TooLong
    } else {
        LineStep::Line(without_end(part.text, part.ended))
    }
}

fn stopped(stop: Stop) -> LineStep
    ensures { result ≡ stopped_by stop }
{
    match stop {
        Stop::Limit => LineStep::Limit,
        Stop::ReadFault => LineStep::ReadFault,
        Stop::NoMemory => LineStep::NoMemory,
    }
}
