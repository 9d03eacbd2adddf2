// The answers to the lines of commands.
use crate::calling::{NONE, Texts, call};
use crate::failing::{append_calls, append_schema_reads, append_script_reads};
use case_lines::{Cases, set_octets, split_word};
use pss_base::{Bytes, NoMemory};
use std::alloc::Global;

fn add_line(script: &mut Vec<u8>, rest: &[u8]) -> Result<(), NoMemory> {
    script.extend_from_slice(rest)?;
    script.push(b'\n')?;
    Ok(())
}

fn texts_of(service: &Service) -> Texts<'_> {
    Texts {
        schema: &service.schema,
        script: &service.script,
    }
}

fn make(alloc: Global, out: &mut Bytes, service: &mut Service) -> Result<(), NoMemory> {
    let made = call(alloc, b"init", &[], texts_of(service), NONE)?;
    let status = made.status.code();
    out.extend(format!(in alloc; "{status}\n")?.as_bytes())?;
    set_octets(&mut service.store, made.station.bytes())
}

fn run(alloc: Global, out: &mut Bytes, service: &Service) -> Result<(), NoMemory> {
    let ended = call(alloc, b"run", &service.store, texts_of(service), NONE)?;
    let status = ended.status.code();
    let calls = ended.station.calls();
    out.extend(format!(in alloc; "{status} {calls}\n")?.as_bytes())?;
    out.extend(ended.station.spoken())
}

fn read(alloc: Global, out: &mut Bytes, service: &Service) -> Result<(), NoMemory> {
    append_schema_reads(alloc, out, &service.store, texts_of(service))?;
    append_script_reads(alloc, out, &service.store, texts_of(service))
}

/// A schema's text, a script and a store.
#[derive(Drop)]
pub struct Service {
    schema: Vec<u8>,
    script: Vec<u8>,
    store: Vec<u8>,
}

impl Service {
    pub fn new(alloc: Global) -> Service {
        Service {
            schema: Vec::new(alloc),
            script: Vec::new(alloc),
            store: Vec::new(alloc),
        }
    }
}

impl Cases for Service {
    fn answer(&mut self, alloc: Global, out: &mut Bytes, line: &[u8]) -> Result<(), NoMemory> {
        let (word, rest) = split_word(line);
        match word {
            b"text" => set_octets(&mut self.schema, rest),
            b"line" => add_line(&mut self.script, rest),
            b"init" => make(alloc, out, self),
            b"run" => run(alloc, out, self),
            b"calls" => append_calls(alloc, out, &self.store, texts_of(self)),
            b"reads" => read(alloc, out, self),
            _ => out.extend(b"no command\n"),
        }
    }
}
