// Numbers, each behind its padding.
ghost use Rattle.std.specs.Prelude.{◌≡◌, ◌≤◌, ◌+◌, ◌-◌, ◌<◌, ◌^◌, ◌==◌, length, slice_index, EachIndex, IfOk, IsTrue};
ghost use Rattle.cdr_codec.specs.Reading.{Gives, pads_at, plain_at, found_at};
ghost use Rattle.cdr_codec.specs.Widths.{octets_in};

use crate::fault::{Found, RecordFault, Stop};
use crate::width::Width;
use pss_base::Steps;
use std::sync::ledger::Ledger;

// The octet in front of a number that does not begin behind the one before it.
const PADDING: u8 = 0;

// The answer where the octets end.
pub(crate) fn short(bytes: &[u8]) -> Stop
    ensures { result ≡ Stop.Fault (RecordFault.Short (length bytes.now)) }
{
    Stop::Fault(RecordFault::Short(bytes.len() as u64))
}

#[tactic(auto, unfolding(crate::specs::Reading::plain_at), using(crate::proofs::Octets::first_octet))]
pub(crate) fn octet_of(bytes: &[u8], at: usize) -> Result<(u8, usize), Stop>
    requires { at ≤ length bytes.now }
    ensures given { Gives (λ x. x) result (plain_at 1 bytes.now at) }
    ensures within { IfOk result (λ x. (at ≤ x.1) × (x.1 ≤ length bytes.now)) }
{
    if at == bytes.len() {
        return Err(short(bytes));
    }
    Ok((bytes[at], at + 1))
}

fn is_padding(byte: u8) -> bool
    ensures { result ≡ (byte == 0) }
{
    byte == PADDING
}

fn are_padding(octets: &[u8]) -> bool
    ensures { IsTrue result → EachIndex octets.now (λ k. slice_index octets.now k ≡ 0) }
{
    octets.iter().all(|octet| *octet == PADDING)
}

// One octet of padding after the other, up to the first that is refused.
#[tactic(auto, unfolding(crate::specs::Reading::pads_at, crate::specs::Reading::one_at))]
fn each_pad_of(bytes: &[u8], count: usize, at: usize) -> Result<usize, Stop>
    requires { at ≤ length bytes.now }
    ensures given { Gives (λ x. x) result (pads_at count bytes.now at) }
    ensures within { IfOk result (λ x. (at ≤ x) × (x ≤ length bytes.now)) }
{
    let mut place = at;
    for _ in 0..count {
        let (byte, after) = octet_of(bytes, place)?;
        if !is_padding(byte) {
            return Err(Stop::Fault(RecordFault::BadPad(place as u64)));
        }
        place = after;
    }
    Ok(place)
}

#[inline(always)]
fn pads_of(bytes: &[u8], count: usize, at: usize) -> Result<usize, Stop>
    requires place { at ≤ length bytes.now }
    requires few { count < 8 }
    ensures given { Gives (λ x. x) result (pads_at count bytes.now at) }
    ensures within { IfOk result (λ x. (at ≤ x) × (x ≤ length bytes.now)) }
{
    if let Some(octets) = bytes.get(at..at + count) {
        if are_padding(octets) {
            return Ok(at + count);
        }
    }
    each_pad_of(bytes, count, at)
}

#[inline(always)]
#[tactic(auto, unfolding(crate::specs::Reading::plain_at))]
fn plain_of(bytes: &[u8], width: Width, at: usize) -> Result<(u64, usize), Stop>
    requires { at ≤ length bytes.now }
    ensures given { Gives (λ x. x) result (plain_at (octets_in width) bytes.now at) }
    ensures within { IfOk result (λ x. (at + 1 ≤ x.1) × (x.1 ≤ length bytes.now)) }
    ensures small { IfOk result (λ x. x.0 < 256 ^ octets_in width) }
{
    if bytes.len() - at < width.octets() {
        return Err(short(bytes));
    }
    Ok((width.number(&bytes[at..]), at + width.octets()))
}

// One step, with its padding.
#[inline(always)]
#[tactic(auto, unfolding(crate::specs::Reading::found_at))]
pub(crate) fn number_of<L: Ledger>(
    bytes: &[u8],
    width: Width,
    at: usize,
    steps: &mut Steps<L>,
) -> Result<Found, Stop>
    requires { at ≤ length bytes.now }
    ensures given { Gives (λ x. x) result (found_at (octets_in width) bytes.now at) }
    ensures within { IfOk result (λ x. (at + 1 ≤ x.after) × (x.after ≤ length bytes.now)) }
    ensures small { IfOk result (λ x. x.number < 256 ^ octets_in width) }
    ensures steps { steps.new ≡ steps.old + 1 }
{
    steps.tick();
    let start = pads_of(bytes, width.gap(at), at)?;
    let (number, after) = plain_of(bytes, width, start)?;
    Ok(Found {
        start,
        number,
        after,
    })
}
