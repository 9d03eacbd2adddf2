// Commands on reading with a count of steps: `steps` and `flips`.
ghost use Rattle.std.specs.Prelude.{◌≡◌, ◌<◌, length};

use crate::records::append_read;
use crate::words::{next_word, place_of};
use case_lines::octets_of;
use cdr_codec::{RecordFault, decode_record};
use pss_base::{Bytes, NoMemory, Steps, skip_blanks};
use std::alloc::Global;
use std::marker::Brand;
use std::sync::ledger::{Blank, Ledger};
use type_layout::{Layout, Record};

// What was read, and after how many steps.
#[derive(Drop)]
struct Counted {
    read: Result<Record, RecordFault>,
    steps: u64,
}

fn read_counted<L: Ledger>(alloc: Global, layout: &Layout, octets: &[u8], blank: Blank) -> Counted
    requires name { blank.name ≡ L.name }
    requires parts { blank.parts ≡ L.parts }
    requires some { 0 < blank.parts }
{
    let mut steps = Steps::<L>::new(blank);
    let read = decode_record(alloc, layout, octets, &mut steps);
    Counted {
        read,
        steps: steps.count(),
    }
}

fn append_counted_of(
    alloc: Global,
    out: &mut Bytes,
    layout: &Layout,
    octets: &[u8],
) -> Result<(), NoMemory> {
    let counted = read_counted::<Brand>(alloc, layout, octets, Blank::new(1));
    append_read(alloc, out, layout, &counted.read)?;
    out.extend(format!(in alloc; " after {}", counted.steps)?.as_bytes())
}

/// `steps OCTETS`: what `decode` answers, and after how many steps.
pub fn append_counted(
    alloc: Global,
    out: &mut Bytes,
    layout: &Layout,
    rest: &[u8],
) -> Result<(), NoMemory> {
    let octets = octets_of(alloc, skip_blanks(rest))?;
    append_counted_of(alloc, out, layout, octets.as_slice())
}

// The octets, with another one at a place.
fn with_octet(alloc: Global, octets: &[u8], at: usize, octet: u8) -> Result<Bytes, NoMemory>
    requires { at < length octets.now }
{
    let mut changed = Bytes::new(alloc);
    changed.extend(&octets[..at])?;
    changed.push(octet)?;
    changed.extend(&octets[at + 1..])?;
    Ok(changed)
}

fn append_flips_at(
    alloc: Global,
    out: &mut Bytes,
    layout: &Layout,
    octets: &[u8],
    at: usize,
) -> Result<(), NoMemory>
    requires { at < length octets.now }
{
    let mut between: &[u8] = b"";
    for octet in [0, 1, 0x7f, 0xff, octets[at] ^ 1] {
        out.extend(between)?;
        let changed = with_octet(alloc, octets, at, octet)?;
        append_counted_of(alloc, out, layout, changed.as_slice())?;
        between = b" / ";
    }
    Ok(())
}

/// `flips AT OCTETS`: what `steps` answers where the octet at a place is 0, 1, 127, 255, and itself but for its lowest bit.
pub fn append_flips(
    alloc: Global,
    out: &mut Bytes,
    layout: &Layout,
    rest: &[u8],
) -> Result<(), NoMemory> {
    let (place, behind) = next_word(rest);
    let octets = octets_of(alloc, skip_blanks(behind))?;
    match place_of(place) {
        Some(at) if at < octets.as_slice().len() => {
            append_flips_at(alloc, out, layout, octets.as_slice(), at)
        }
        _ => out.extend(b"no such place"),
    }
}
