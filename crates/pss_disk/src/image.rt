// What a crash may leave after some calls of a station in memory.
ghost use Rattle.std.specs.Prelude.{◌≡◌, All, IfOk, OnOk};
ghost use Rattle.pss_disk.specs.Moments.{pend, settled};
ghost use Rattle.pss_disk.specs.Octets.{range_of};
ghost use Rattle.pss_disk.specs.Tape.{IsFilled, IsPicked, after, after_all, filling, start};
ghost use Rattle.pss_disk.specs.inner.Crash.{IsLastSync, IsNoSync};

use crate::call::Call;
use crate::record::{fill, half, lengthen, write_into};
use pss_base::{Bytes, NoMemory};
use std::alloc::Global;

// The octets that are filled in where any may stand.
const FIRST_FILLING: u8 = 0xA5;

const SECOND_FILLING: u8 = 0x5A;

fn filling(pick: u8) -> u8
    ensures { result ≡ filling pick }
{
    match pick {
        2 => FIRST_FILLING,
        3 => SECOND_FILLING,
        _ => pick,
    }
}

// How many calls there are up to the last sync.
fn last_sync(calls: &[Call]) -> usize
    ensures { IsLastSync calls.now result }
{
    let mut last = 0;
    for (number, call) in calls.iter().enumerate() {
        if let Call::Synced = call {
            last = number + 1;
        }
    }
    last
}

// Does to a content what a call did.
fn apply(content: &mut Vec<u8>, call: &Call) -> Result<(), NoMemory>
    ensures { OnOk result (content.new.items ≡ (after call.now (start content.old.items)).content) }
{
    match call {
        Call::Wrote(at, bytes) => write_into(content, *at, bytes.as_slice()),
        Call::Tore(at, bytes) => write_into(content, *at, half(bytes.as_slice())),
        _ => Ok(()),
    }
}

// Does to a content what the calls did.
fn apply_all(content: &mut Vec<u8>, calls: &[Call]) -> Result<(), NoMemory>
    ensures { OnOk result (content.new.items ≡ (after_all (start content.old.items) calls.now).content) }
{
    for call in calls {
        apply(content, call)?;
    }
    Ok(())
}

// Fills the range of a write, and what is behind the old end up to it.
fn fill_range(image: &mut Vec<u8>, at: u32, bytes: &[u8], octet: u8) -> Result<(), NoMemory>
    ensures { OnOk result (IsFilled octet (pend (range_of at bytes.now) (settled image.old.items)) image.new.items) }
{
    if bytes.is_empty() {
        return Ok(());
    }
    let at = at as usize;
    lengthen(image, at + bytes.len(), octet)?;
    fill(image, at, bytes.len(), octet);
    Ok(())
}

// Fills what a call wrote.
fn fill_call(image: &mut Vec<u8>, call: &Call, octet: u8) -> Result<(), NoMemory>
    requires { IsNoSync call.now }
    ensures { OnOk result (IsFilled octet (after call.now (start image.old.items)).disk image.new.items) }
{
    match call {
        Call::Wrote(at, bytes) => fill_range(image, *at, bytes.as_slice(), octet),
        Call::Tore(at, bytes) => fill_range(image, *at, bytes.as_slice(), octet),
        _ => Ok(()),
    }
}

// Fills what calls wrote that no sync follows.
fn fill_all(image: &mut Vec<u8>, calls: &[Call], octet: u8) -> Result<(), NoMemory>
    requires { All IsNoSync calls.now }
    ensures { OnOk result (IsFilled octet (after_all (start image.old.items) calls.now).disk image.new.items) }
{
    for call in calls {
        fill_call(image, call, octet)?;
    }
    Ok(())
}

// Makes the image of a pick of a content on which nothing was pending before these calls.
fn pick_image(image: &mut Vec<u8>, calls: &[Call], pick: u8) -> Result<(), NoMemory>
    requires { All IsNoSync calls.now }
    ensures { OnOk result (IsPicked pick (after_all (start image.old.items) calls.now) image.new.items) }
{
    match pick {
        0 => Ok(()),
        1 => apply_all(image, calls),
        _ => fill_all(image, calls, filling(pick)),
    }
}

// The image of a pick after these calls.
pub fn image_after(alloc: Global, first: &[u8], calls: &[Call], pick: u8) -> Result<Bytes, NoMemory>
    ensures { IfOk result (IsPicked pick (after_all (start first.now) calls.now)) }
{
    let synced = last_sync(calls);
    let mut image = first.to_vec(alloc)?;
    apply_all(&mut image, &calls[..synced])?;
    pick_image(&mut image, &calls[synced..], pick)?;
    Bytes::from_slice(alloc, &image)
}
