// The answers to the lines of commands.
ghost use Rattle.type_layout.specs.Sound.{IsSoundSchema};

use crate::crashes::{Plan, append_crashes, append_end, append_store};
use crate::octets::{put_copies, put_numbers};
use crate::runs::run;
use crate::schemas::schema_of;
use crate::steps::{Step, fill};
use case_lines::{
    Cases, append_sum, begin_store, number_of, put_octets, put_of, set_octets, short_number_of,
    split_word, station_of,
};
use pss_base::{Bytes, NoMemory, Puts};
use pss_recovery::{Body, InitFault, Store};
use std::alloc::Global;
use std::mem::replace;
use type_layout::{Schema, shape_of};

/// A schema's text, a store, and the steps that were told.
#[derive(Drop)]
pub struct Stores {
    text: Vec<u8>,
    store: Vec<u8>,
    steps: Vec<Step>,
    puts: Puts,
}

impl Stores {
    pub fn new(alloc: Global) -> Stores {
        Stores {
            text: Vec::new(alloc),
            store: Vec::new(alloc),
            steps: Vec::new(alloc),
            puts: Puts::new(alloc),
        }
    }
}

// `body NEXT`: the changes so far are a step.
fn end_body(alloc: Global, state: &mut Stores, rest: &[u8]) -> Result<(), NoMemory> {
    let puts = replace(&mut state.puts, Puts::new(alloc));
    let next = number_of(rest).unwrap_or(1);
    state.steps.push(Step::Commit(Body { next, puts }))?;
    Ok(())
}

// `checkpoint`: a step.
fn add_checkpoint(state: &mut Stores) -> Result<(), NoMemory> {
    state.steps.push(Step::Checkpoint)?;
    Ok(())
}

fn word_of(made: Result<(), InitFault>) -> Result<&'static [u8], NoMemory> {
    match made {
        Ok(()) => Ok(b"ok"),
        Err(InitFault::NotEmpty) => Ok(b"NotEmpty"),
        Err(InitFault::DiskFault) => Ok(b"DiskFault"),
        Err(InitFault::NoMemory) => Err(NoMemory),
    }
}

fn tell_init(
    alloc: Global,
    out: &mut Bytes,
    state: &mut Stores,
    schema: &Schema,
    failing: Option<u32>,
) -> Result<(), NoMemory> {
    let mut station = station_of(alloc, &state.store, failing)?;
    let shape = shape_of(alloc, schema)?;
    if shape.as_slice().len() > 65536 {
        return out.extend(b"shape too long\n");
    }
    let made = Store::init(alloc, &mut station, &shape);
    out.extend(word_of(made)?)?;
    out.extend(b"\n")?;
    set_octets(&mut state.store, station.bytes())
}

fn tell_mount(
    alloc: Global,
    out: &mut Bytes,
    state: &mut Stores,
    schema: &Schema,
    failing: Option<u32>,
) -> Result<(), NoMemory>
    requires { IsSoundSchema schema.now }
{
    let mut station = station_of(alloc, &state.store, failing)?;
    append_store(alloc, out, schema, &mut station)?;
    out.extend(b"\n")?;
    set_octets(&mut state.store, station.bytes())
}

fn tell_run(
    alloc: Global,
    out: &mut Bytes,
    state: &mut Stores,
    schema: &Schema,
    failing: Option<u32>,
) -> Result<(), NoMemory>
    requires { IsSoundSchema schema.now }
{
    let mut station = station_of(alloc, &state.store, failing)?;
    let ended = run(alloc, &mut station, schema, &state.steps);
    append_end(alloc, out, ended)?;
    out.extend(b"\n")?;
    state.steps.clear();
    set_octets(&mut state.store, station.bytes())
}

fn tell_crashes(
    alloc: Global,
    out: &mut Bytes,
    state: &Stores,
    schema: &Schema,
    from: Option<u32>,
) -> Result<(), NoMemory>
    requires { IsSoundSchema schema.now }
{
    let plan = Plan {
        schema,
        store: &state.store,
        steps: &state.steps,
        from: from.unwrap_or(0),
    };
    append_crashes(alloc, out, plan)
}

// The answers to lines that need a schema.
fn answer_under(
    alloc: Global,
    out: &mut Bytes,
    state: &mut Stores,
    line: &[u8],
) -> Result<(), NoMemory> {
    let Some(schema) = schema_of(alloc, &state.text) else {
        return out.extend(b"no schema\n");
    };
    let (word, rest) = split_word(line);
    let number = short_number_of(rest);
    match word {
        b"init" => tell_init(alloc, out, state, &schema, number),
        b"mount" => tell_mount(alloc, out, state, &schema, number),
        b"run" => tell_run(alloc, out, state, &schema, number),
        b"crashes" => tell_crashes(alloc, out, state, &schema, number),
        _ => out.extend(b"no command\n"),
    }
}

impl Cases for Stores {
    fn answer(&mut self, alloc: Global, out: &mut Bytes, line: &[u8]) -> Result<(), NoMemory> {
        let (word, rest) = split_word(line);
        match word {
            b"text" => set_octets(&mut self.text, rest),
            b"store" => begin_store(&mut self.store, rest),
            b"octets" => put_octets(alloc, &mut self.store, rest),
            b"copies" => put_copies(alloc, &mut self.store, rest),
            b"numbers" => {
                put_numbers(&mut self.store, rest);
                Ok(())
            }
            b"sum" => append_sum(alloc, out, &self.store, rest),
            b"change" => self.puts.push(put_of(alloc, rest)?),
            b"fill" => fill(alloc, &mut self.puts, rest),
            b"body" => end_body(alloc, self, rest),
            b"checkpoint" => add_checkpoint(self),
            _ => answer_under(alloc, out, self, line),
        }
    }
}
