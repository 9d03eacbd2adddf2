// A body from octets.
ghost use Rattle.std.specs.Prelude.{◌≡◌, ◌+◌, ◌<◌, ◌≤◌, ◌++◌, ◌∷◌, [], List, length, IfOk, IfSome, IsNone, OnOk};
ghost use Rattle.pss_recovery.specs.declared.body.Body.{Body as Said};
ghost use Rattle.pss_recovery.specs.Bodies.{Spells};
ghost use Rattle.pss_recovery.specs.inner.Changes.{AreChanges, Begins, change_in, record_in};
ghost use Rattle.pss_base.specs.declared.put.Put.{Put as Change};

use crate::body::Body;
use crate::head::{ChangeHead, read_head};
use crate::layout::{CHANGES, COUNT, RECORD};
use crate::octets::behind;
use pss_base::{Bytes, MOST_CHANGES, NoMemory, Put, Puts};
use pss_disk::{read_number4, read_number8};
use std::alloc::Global;

// The record that octets are; none where there are none.
fn record_of(alloc: Global, octets: &[u8]) -> Result<Option<Bytes>, NoMemory>
    ensures { IfOk result (λ bytes. bytes ≡ record_in octets.now) }
{
    if octets.is_empty() {
        return Ok(None);
    }
    Ok(Some(Bytes::from_slice(alloc, octets)?))
}

// Adds the change with a head that the octets begin with.
fn add_change(
    alloc: Global,
    puts: &mut Puts,
    head: ChangeHead,
    octets: &[u8],
) -> Result<(), NoMemory>
    requires { Begins head octets.now }
    ensures { OnOk result (puts.new ≡ puts.old ++ change_in head octets.now ∷ []) }
{
    let bytes = record_of(alloc, &octets[RECORD..RECORD + head.len as usize])?;
    puts.push(Put {
        home: head.home,
        serial: head.serial,
        bytes,
    })
}

// The changes that the octets are, so many, one behind the other.
fn changes_of(alloc: Global, octets: &[u8], count: u32) -> Result<Option<Puts>, NoMemory>
    ensures found { IfOk result (λ puts. IfSome puts (AreChanges octets.now count)) }
    ensures only { IfOk result (λ puts. IsNone puts → (others : List Change) → AreChanges octets.now count others → ⊥) }
{
    let mut puts = Puts::new(alloc);
    let mut at = 0;
    'changes: for k in 0..count {
        let rest = behind(octets, at);
        let Some(head) = read_head(rest) else {
            return Ok(None);
        };
        add_change(alloc, &mut puts, head, rest)?;
        at += RECORD + head.len as usize;
    }
    if at == octets.len() {
        Ok(Some(puts))
    } else {
        Ok(None)
    }
}

/// The body that the octets spell, where they spell one of at most 256 changes.
pub fn decode_body(alloc: Global, octets: &[u8]) -> Result<Option<Body>, NoMemory>
    ensures found { IfOk result (λ body. IfSome body (Spells octets.now)) }
    ensures few { IfOk result (λ body. IfSome body (λ body. length body.puts ≤ 256)) }
    ensures only { IfOk result (λ body. IsNone body → (other : Said) → Spells octets.now other → length other.puts ≤ 256 → ⊥) }
{
    if octets.len() < CHANGES {
        return Ok(None);
    }
    let count = read_number4(octets, COUNT);
    if count > MOST_CHANGES {
        return Ok(None);
    }
    match changes_of(alloc, &octets[CHANGES..], count) {
        Ok(Some(puts)) => Ok(Some(Body {
            next: read_number8(octets, 0),
            puts,
        })),
        Ok(None) => Ok(None),
        Err(NoMemory) => Err(NoMemory),
    }
}
