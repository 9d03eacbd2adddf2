// Commands on one value: `value` and `octets`.
use crate::words::{next_word, place_of};
use case_lines::octets_of;
use pss_base::{Bytes, NoMemory, skip_blanks};
use std::alloc::Global;
use type_layout::{Layout, Ty, Value, is_of};
use value_text::{ValueFault, print_value, read_value};

/// Puts the text of a value behind what is there. Only for a value of the type is the text asked for.
pub fn append_value(
    alloc: Global,
    out: &mut Bytes,
    ty: &Ty,
    value: &Value,
) -> Result<(), NoMemory> {
    if is_of(value, ty) {
        out.extend(print_value(alloc, ty, value)?.as_slice())
    } else {
        out.extend(b"no value of the type")
    }
}

fn append_read(
    alloc: Global,
    out: &mut Bytes,
    ty: &Ty,
    text: &[u8],
    at: usize,
) -> Result<(), NoMemory> {
    if at > text.len() {
        return out.extend(b"no such place");
    }
    match read_value(alloc, ty, text, at) {
        Ok((value, end)) => {
            out.extend(format!(in alloc; "{end} ")?.as_bytes())?;
            append_value(alloc, out, ty, &value)
        }
        Err(ValueFault::BadValue) => out.extend(b"BADVALUE"),
        Err(ValueFault::NoMemory) => Err(NoMemory),
    }
}

fn append_read_of_first(
    alloc: Global,
    out: &mut Bytes,
    layout: &Layout,
    text: &[u8],
    place: &[u8],
) -> Result<(), NoMemory> {
    let Some(at) = place_of(place) else {
        return out.extend(b"no such place");
    };
    match layout.members.as_slice() {
        [member, ..] => append_read(alloc, out, &member.ty, text, at),
        [] => out.extend(b"no member"),
    }
}

/// `value AT TEXT`: where the value of the first member's type ends that stands at a place of the text, counted from 0, and what is
/// printed for it. The text begins behind one blank and goes to the end of the line.
pub fn append_value_read(
    alloc: Global,
    out: &mut Bytes,
    layout: &Layout,
    rest: &[u8],
) -> Result<(), NoMemory> {
    let (place, behind) = next_word(rest);
    append_read_of_first(alloc, out, layout, behind.get(1..).unwrap_or(&[]), place)
}

/// `octets AT OCTETS`: the same of a text that is given by its octets, so that any byte may stand in it.
pub fn append_octets_read(
    alloc: Global,
    out: &mut Bytes,
    layout: &Layout,
    rest: &[u8],
) -> Result<(), NoMemory> {
    let (place, behind) = next_word(rest);
    let text = octets_of(alloc, skip_blanks(behind))?;
    append_read_of_first(alloc, out, layout, text.as_slice(), place)
}
