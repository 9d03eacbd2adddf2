// A body as octets.
ghost use Rattle.std.specs.Prelude.{◌≡◌, ◌^◌, ◌<◌, ◌++◌, length, IfOk, OnOk};
ghost use Rattle.std.specs.List.{AllByRecursion, flat_map};
ghost use Rattle.pss_recovery.specs.Bodies.{HasLength, IsSpellable, Spells, change_head, change_octets};

use crate::body::Body;
use crate::layout::{CHANGES, LENGTH, RECORD, SERIAL};
use page_format::record_of;
use pss_base::{Bytes, NoMemory, Put};
use std::alloc::Global;

// The head of a change.
#[tactic(auto, unfolding(crate::specs::Bodies::change_head))]
fn head_octets(home: u32, serial: u64, len: u32) -> [u8; RECORD]
    ensures { result ≡ change_head home serial len }
{
    let mut octets = [0; RECORD];
    octets[..SERIAL].copy_from_slice(&home.to_be_bytes());
    octets[SERIAL..LENGTH].copy_from_slice(&serial.to_be_bytes());
    octets[LENGTH..].copy_from_slice(&len.to_be_bytes());
    octets
}

// Adds a change.
fn put_change(octets: &mut Bytes, put: &Put) -> Result<(), NoMemory>
    requires { HasLength put.now }
    ensures added { OnOk result (octets.new ≡ octets.old ++ change_octets put.now) }
    ensures spellable { OnOk result (IsSpellable put.now) }
{
    let record = record_of(put);
    octets.extend(&head_octets(put.home, put.serial, record.len() as u32))?;
    octets.extend(record)
}

// Adds changes.
fn put_changes(octets: &mut Bytes, puts: &[Put]) -> Result<(), NoMemory>
    requires { AllByRecursion HasLength puts.now }
    ensures added { OnOk result (octets.new ≡ octets.old ++ flat_map change_octets puts.now) }
    ensures spellable { OnOk result (AllByRecursion IsSpellable puts.now) }
{
    for put in puts {
        put_change(octets, put)?;
    }
    Ok(())
}

// What the record of a change takes, as a rule.
const USUAL_RECORD: usize = 16;

// The octets of a body, in the room of other octets.
pub(crate) fn encode_in(mut octets: Bytes, body: &Body) -> Result<Bytes, NoMemory>
    requires few { length body.now.puts < 2 ^ 32 }
    requires each { AllByRecursion HasLength body.now.puts }
    ensures { IfOk result (λ octets. Spells octets body.now) }
{
    let puts = body.puts.as_slice();
    octets.clear();
    octets.reserve(CHANGES + (RECORD + USUAL_RECORD) * puts.len())?;
    octets.extend(&body.next.to_be_bytes())?;
    octets.extend(&(puts.len() as u32).to_be_bytes())?;
    put_changes(&mut octets, puts)?;
    Ok(octets)
}

/// The octets of a body.
pub fn encode_body(alloc: Global, body: &Body) -> Result<Bytes, NoMemory>
    requires few { length body.now.puts < 2 ^ 32 }
    requires each { AllByRecursion HasLength body.now.puts }
    ensures { IfOk result (λ octets. Spells octets body.now) }
{
    encode_in(Bytes::new(alloc), body)
}
