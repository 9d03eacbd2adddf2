// The answers to cases.
use crate::commands::append_said;
use crate::replies::reply_of;
use case_lines::{Cases, octets_of, split_word};
use pss_base::{Bytes, NoMemory};
use script_text::print_reply;
use std::alloc::Global;

/// A line of a script has at most so many bytes.
const MOST_LINE: usize = 65536;

fn append_line(out: &mut Bytes, line: &[u8]) -> Result<(), NoMemory> {
    if line.len() <= MOST_LINE {
        append_said(out, line)
    } else {
        out.extend(b"too long")
    }
}

fn append_octets(alloc: Global, out: &mut Bytes, digits: &[u8]) -> Result<(), NoMemory> {
    let line = octets_of(alloc, digits)?;
    append_line(out, line.as_slice())
}

fn append_reply(alloc: Global, out: &mut Bytes, rest: &[u8]) -> Result<(), NoMemory> {
    let (name, parts) = split_word(rest);
    match reply_of(alloc, name, parts)? {
        Some(reply) => out.extend(print_reply(alloc, &reply)?.as_slice()),
        None => out.extend(b"no such reply"),
    }
}

/// Lines and replies. Nothing is kept from one case to the next.
#[derive(Drop)]
pub struct Scripts;

impl Cases for Scripts {
    fn answer(&mut self, alloc: Global, out: &mut Bytes, case: &[u8]) -> Result<(), NoMemory> {
        let (kind, rest) = split_word(case);
        match kind {
            b"line" => append_line(out, rest)?,
            b"octets" => append_octets(alloc, out, rest)?,
            b"reply" => append_reply(alloc, out, rest)?,
            b"#" => return Ok(()),
            _ => out.extend(b"no such case")?,
        }
        out.extend(b"\n")
    }
}
