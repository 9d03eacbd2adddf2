// The answers to the lines of commands.
use crate::reading::{append_counted, append_flips};
use crate::records::{append_decoded, append_default, append_encoded, append_length};
use crate::types::{append_descends, append_is};
use crate::values::{append_octets_read, append_value_read};
use crate::words::first_word;
use case_lines::{Cases, split_word};
use psdl_check::check;
use psdl_syntax::parse;
use pss_base::{Bytes, NoMemory};
use std::alloc::Global;
use type_layout::{Layout, Schema};

// The schema of a text, none where the text is refused.
fn schema_of(alloc: Global, text: &[u8]) -> Option<Schema> {
    let Ok(tree) = parse(alloc, text) else {
        return None;
    };
    match check(alloc, &tree) {
        Ok(schema) => Some(schema),
        Err(_) => None,
    }
}

// What the commands are asked about: a schema, and the layout of its first home.
#[derive(Clone, Copy, Drop)]
struct Subject<'a> {
    schema: &'a Schema,
    layout: &'a Layout,
}

// The answer to a command. The table of them is in `main.rt`.
fn append_answer(
    alloc: Global,
    out: &mut Bytes,
    subject: Subject<'_>,
    line: &[u8],
) -> Result<(), NoMemory> {
    let (command, rest) = first_word(line);
    match command {
        b"encode" => append_encoded(alloc, out, subject.layout, rest, command.len() + 1)?,
        b"length" => append_length(alloc, out, subject.layout, rest, command.len() + 1)?,
        b"decode" => append_decoded(alloc, out, subject.layout, rest)?,
        b"steps" => append_counted(alloc, out, subject.layout, rest)?,
        b"flips" => append_flips(alloc, out, subject.layout, rest)?,
        b"default" => append_default(alloc, out, subject.layout)?,
        b"value" => append_value_read(alloc, out, subject.layout, rest)?,
        b"octets" => append_octets_read(alloc, out, subject.layout, rest)?,
        b"is" => append_is(alloc, out, subject.layout, rest)?,
        b"descends" => append_descends(out, subject.schema, rest)?,
        _ => out.extend(b"no command")?,
    }
    out.extend(b"\n")
}

// The same over the first home of the text that was named last.
fn append_answer_over(
    alloc: Global,
    out: &mut Bytes,
    schema: &Option<Schema>,
    line: &[u8],
) -> Result<(), NoMemory> {
    let Some(schema) = schema else {
        return out.extend(b"no schema\n");
    };
    let [home, ..] = schema.homes.as_slice() else {
        return out.extend(b"no home\n");
    };
    let subject = Subject {
        schema,
        layout: &home.layout,
    };
    append_answer(alloc, out, subject, line)
}

/// The schema of the text that came last, none where it was refused.
#[derive(Drop)]
pub struct Records {
    schema: Option<Schema>,
}

impl Records {
    pub fn new() -> Records {
        Records { schema: None }
    }
}

impl Cases for Records {
    fn answer(&mut self, alloc: Global, out: &mut Bytes, line: &[u8]) -> Result<(), NoMemory> {
        match split_word(line) {
            (b"text", text) => {
                self.schema = schema_of(alloc, text);
                Ok(())
            }
            _ => append_answer_over(alloc, out, &self.schema, line),
        }
    }
}
