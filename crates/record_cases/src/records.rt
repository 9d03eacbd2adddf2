// Commands on records: `encode`, `length`, `decode` and `default`.
use crate::values::append_value;
use case_lines::{append_octets, octets_of};
use cdr_codec::{RecordFault, decode, encode_record, record_len};
use pss_base::{Bytes, NoMemory, skip_blanks};
use std::alloc::Global;
use type_layout::{Layout, Record, Values, default_of, is_record};
use value_text::{LineFault, read_members};

/// No line has more bytes than all of the input.
const MOST_LINE: usize = 16777216;

fn append_octets_of(
    alloc: Global,
    out: &mut Bytes,
    layout: &Layout,
    record: &Record,
) -> Result<(), NoMemory> {
    if is_record(layout, record) {
        append_octets(out, encode_record(alloc, layout, record)?.as_slice())
    } else {
        out.extend(b"no record of the layout")
    }
}

fn append_length_of(
    alloc: Global,
    out: &mut Bytes,
    layout: &Layout,
    record: &Record,
) -> Result<(), NoMemory> {
    if is_record(layout, record) {
        out.extend(format!(in alloc; "{}", record_len(layout, record))?.as_bytes())
    } else {
        out.extend(b"no record of the layout")
    }
}

// The record whose values stand in the rest of a line from a column on.
fn record_in(
    alloc: Global,
    layout: &Layout,
    rest: &[u8],
    column: usize,
) -> Result<Record, LineFault> {
    if column > MOST_LINE || rest.len() > MOST_LINE {
        return Err(LineFault::BadValue(0));
    }
    match read_members(alloc, layout.members.as_slice(), rest, column as u32) {
        Ok(values) => Ok(Record(values)),
        Err(fault) => Err(fault),
    }
}

fn append_line_fault(alloc: Global, out: &mut Bytes, fault: LineFault) -> Result<(), NoMemory> {
    match fault {
        LineFault::BadValue(at) => out.extend(format!(in alloc; "BADVALUE {at}")?.as_bytes()),
        LineFault::NoMemory => Err(NoMemory),
    }
}

/// `encode V V ..`: the octets of the record with these values, which stand in the rest of the line from a column on.
pub fn append_encoded(
    alloc: Global,
    out: &mut Bytes,
    layout: &Layout,
    rest: &[u8],
    column: usize,
) -> Result<(), NoMemory> {
    match record_in(alloc, layout, rest, column) {
        Ok(record) => append_octets_of(alloc, out, layout, &record),
        Err(fault) => append_line_fault(alloc, out, fault),
    }
}

/// `length V V ..`: the number of these octets.
pub fn append_length(
    alloc: Global,
    out: &mut Bytes,
    layout: &Layout,
    rest: &[u8],
    column: usize,
) -> Result<(), NoMemory> {
    match record_in(alloc, layout, rest, column) {
        Ok(record) => append_length_of(alloc, out, layout, &record),
        Err(fault) => append_line_fault(alloc, out, fault),
    }
}

fn append_refusal(alloc: Global, out: &mut Bytes, name: &str, place: u64) -> Result<(), NoMemory> {
    out.extend(format!(in alloc; "{name}({place})")?.as_bytes())
}

fn append_fault(alloc: Global, out: &mut Bytes, fault: RecordFault) -> Result<(), NoMemory> {
    match fault {
        RecordFault::Short(place) => append_refusal(alloc, out, "Short", place),
        RecordFault::BadFlag => out.extend(b"BadFlag"),
        RecordFault::BadBool(place) => append_refusal(alloc, out, "BadBool", place),
        RecordFault::BadEnum(place) => append_refusal(alloc, out, "BadEnum", place),
        RecordFault::BadNul(place) => append_refusal(alloc, out, "BadNul", place),
        RecordFault::BadPad(place) => append_refusal(alloc, out, "BadPad", place),
        RecordFault::OverBound(place) => append_refusal(alloc, out, "OverBound", place),
        RecordFault::BadRef(place) => append_refusal(alloc, out, "BadRef", place),
        RecordFault::Rest(place) => append_refusal(alloc, out, "Rest", place),
        RecordFault::NoMemory => Err(NoMemory),
    }
}

/// The values of a record, or why octets are none, and where.
pub fn append_read(
    alloc: Global,
    out: &mut Bytes,
    layout: &Layout,
    read: &Result<Record, RecordFault>,
) -> Result<(), NoMemory> {
    match read {
        Ok(record) => append_record(alloc, out, layout, record),
        Err(fault) => append_fault(alloc, out, *fault),
    }
}

/// `decode OCTETS`: the values of the record with these octets, or why they are no record, and where.
pub fn append_decoded(
    alloc: Global,
    out: &mut Bytes,
    layout: &Layout,
    rest: &[u8],
) -> Result<(), NoMemory> {
    let octets = octets_of(alloc, skip_blanks(rest))?;
    append_read(
        alloc,
        out,
        layout,
        &decode(alloc, layout, octets.as_slice()),
    )
}

/// `default`: the values that the members have until others are given.
pub fn append_default(alloc: Global, out: &mut Bytes, layout: &Layout) -> Result<(), NoMemory> {
    let mut values = Values::new(alloc);
    for member in layout.members.as_slice() {
        values.push(default_of(alloc, &member.ty)?)?;
    }
    append_record(alloc, out, layout, &Record(values))
}

// The texts of a record's values, a space between them.
fn append_record(
    alloc: Global,
    out: &mut Bytes,
    layout: &Layout,
    record: &Record,
) -> Result<(), NoMemory> {
    let mut between: &[u8] = b"";
    for (member, value) in layout.members.as_slice().iter().zip(record.0.as_slice()) {
        out.extend(between)?;
        append_value(alloc, out, &member.ty, value)?;
        between = b" ";
    }
    Ok(())
}
