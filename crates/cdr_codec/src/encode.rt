// From records to octets.
ghost use Rattle.std.specs.Prelude.{◌≡◌, ◌++◌, ◌+◌, ◌<◌, ◌^◌, [], ◌∷◌, length, map, IfOk, OnOk};
ghost use Rattle.type_layout.specs.Types.{Int, Items, Parts, fields_of, values_of};
ghost use Rattle.type_layout.specs.Views.{plain_type, plain_field, plain_value};
ghost use Rattle.type_layout.specs.Members.{plain_member};
ghost use Rattle.type_layout.specs.Values.{Of, AreOf, EachOf, IsRecord, layout_fields, count};
ghost use Rattle.type_layout.specs.Spelling.{padding, number as spelled, reference, each, spelling, spellings, record_spelling};
ghost use Rattle.std.specs.Int.{w32};
ghost use Rattle.byteorder.specs.Endian.{big_bytes};
ghost use Rattle.cdr_codec.specs.Widths.{octets_in};

use crate::length::record_len;
use crate::width::Width;
use pss_base::{Bytes, NoMemory, Pid};
use std::alloc::Global;
use type_layout::{Field, Layout, Member, Record, Ty, Value};

/// The octets of a record of the layout: the flag 0, which says big-endian, then the members in order,
/// each number at a multiple of its width, counted from the flag, with zero octets in front of it.
/// It takes time and memory in the number of these octets.
pub fn encode_record(alloc: Global, layout: &Layout, value: &Record) -> Result<Bytes, NoMemory>
    requires { IsRecord layout.now.members value.now }
    ensures { IfOk result (λ bytes. bytes ≡ record_spelling layout.now.members value.now) }
{
    let mut out = Bytes::with_room(alloc, record_len(layout, value) as usize)?;
    out.push(0)?;
    put_members(&mut out, layout.members.as_slice(), value.0.as_slice())?;
    Ok(out)
}

const ZEROS: [u8; 8] = [0; 8];

// Octets of 0 up to the next multiple of the width.
fn put_padding(out: &mut Bytes, width: Width) -> Result<(), NoMemory>
    ensures { OnOk result (out.new ≡ out.old ++ padding (octets_in width) (length out.old)) }
{
    let gap = width.gap(out.as_slice().len());
    out.extend(&ZEROS[..gap])
}

fn put_octets(out: &mut Bytes, width: Width, number: u64) -> Result<(), NoMemory>
    requires { number < 256 ^ octets_in width }
    ensures { OnOk result (out.new ≡ out.old ++ big_bytes (octets_in width) number) }
{
    match width {
        Width::One => out.push(number as u8),
        Width::Two => out.extend(&(number as u16).to_be_bytes()),
        Width::Four => out.extend(&(number as u32).to_be_bytes()),
        Width::Eight => out.extend(&number.to_be_bytes()),
    }
}

// A number at a multiple of its width.
fn put_number(out: &mut Bytes, width: Width, number: u64) -> Result<(), NoMemory>
    requires { number < 256 ^ octets_in width }
    ensures { OnOk result (out.new ≡ out.old ++ (padding (octets_in width) (length out.old) ++ big_bytes (octets_in width) number)) }
{
    put_padding(out, width)?;
    put_octets(out, width, number)
}

#[inline(always)]
fn put_integer(out: &mut Bytes, ty: &Ty, number: i128) -> Result<(), NoMemory>
    requires { Of (plain_type ty.now) (Int number) }
    ensures { OnOk result (out.new ≡ out.old ++ spelling (plain_type ty.now) (Int number) (length out.old)) }
{
    match ty {
        Ty::Short => put_number(out, Width::Two, (number as i16).cast_unsigned() as u64),
        Ty::Long => put_number(out, Width::Four, (number as i32).cast_unsigned() as u64),
        Ty::LongLong => put_number(out, Width::Eight, (number as i64).cast_unsigned()),
        Ty::UShort => put_number(out, Width::Two, u64::from(number as u16)),
        Ty::ULong => put_number(out, Width::Four, u64::from(number as u32)),
        Ty::ULongLong => put_number(out, Width::Eight, number as u64),
        Ty::Octet => put_number(out, Width::One, u64::from(number as u8)),
        _ => unreachable!(),
    }
}

fn put_text(out: &mut Bytes, text: &[u8]) -> Result<(), NoMemory>
    requires { length text.now + 1 < 2 ^ 32 }
    ensures { OnOk result (out.new ≡ out.old ++ (spelled w32 (length text.now + 1) (length out.old) ++ (text.now ++ 0 ∷ []))) }
{
    put_number(out, Width::Four, text.len() as u64 + 1)?;
    out.extend(text)?;
    out.push(0)
}

// The home and the serial of an object, or 0 and 0.
fn put_pid(out: &mut Bytes, pid: Option<Pid>) -> Result<(), NoMemory>
    ensures { OnOk result (out.new ≡ out.old ++ reference pid (length out.old)) }
{
    let (home, serial) = match pid {
        Some(pid) => (pid.home, pid.serial),
        None => (0, 0),
    };
    put_number(out, Width::Four, u64::from(home))?;
    put_number(out, Width::Eight, serial)
}

#[tactic(auto, using(crate::proofs::Sizes::count_is))]
fn count_of(values: &[Value]) -> usize
    ensures { result ≡ count (values_of (map plain_value values.now)) }
{
    values.len()
}

#[cycle(put)]
#[inline(always)]
fn put(out: &mut Bytes, ty: &Ty, value: &Value) -> Result<(), NoMemory>
    requires { Of (plain_type ty.now) (plain_value value.now) }
    ensures { OnOk result (out.new ≡ out.old ++ spelling (plain_type ty.now) (plain_value value.now) (length out.old)) }
{
    match value {
        Value::Int(number) => put_integer(out, ty, *number),
        Value::Char(code) => put_number(out, Width::One, u64::from(*code)),
        Value::Bool(truth) => put_number(out, Width::One, u64::from(*truth)),
        Value::Enum(ordinal) => put_number(out, Width::Four, u64::from(*ordinal)),
        Value::Str(text) => put_text(out, text.as_slice()),
        Value::Ref(pid) => put_pid(out, *pid),
        Value::List(values) => put_list(out, ty, values.as_slice()),
        Value::Struct(values) => put_struct(out, ty, values.as_slice()),
    }
}

#[cycle(put)]
fn put_list(out: &mut Bytes, ty: &Ty, values: &[Value]) -> Result<(), NoMemory>
    requires { Of (plain_type ty.now) (Items (values_of (map plain_value values.now))) }
    ensures { OnOk result (out.new ≡ out.old ++ spelling (plain_type ty.now) (Items (values_of (map plain_value values.now))) (length out.old)) }
{
    match ty {
        Ty::Seq(item, _) => {
            put_number(out, Width::Four, count_of(values) as u64)?;
            put_items(out, item, values)
        }
        Ty::Arr(item, _) => put_items(out, item, values),
        _ => unreachable!(),
    }
}

#[cycle(put)]
fn put_items(out: &mut Bytes, item: &Ty, values: &[Value]) -> Result<(), NoMemory>
    requires { EachOf (Of (plain_type item.now)) (values_of (map plain_value values.now)) }
    ensures { OnOk result (out.new ≡ out.old ++ each (spelling (plain_type item.now)) (values_of (map plain_value values.now)) (length out.old)) }
{
    for value in values {
        put(out, item, value)?;
    }
    Ok(())
}

#[cycle(put)]
fn put_struct(out: &mut Bytes, ty: &Ty, values: &[Value]) -> Result<(), NoMemory>
    requires { Of (plain_type ty.now) (Parts (values_of (map plain_value values.now))) }
    ensures { OnOk result (out.new ≡ out.old ++ spelling (plain_type ty.now) (Parts (values_of (map plain_value values.now))) (length out.old)) }
{
    match ty {
        Ty::Struct(fields) => put_fields(out, fields.as_slice(), values),
        Ty::Str(_) => unreachable!(),
        Ty::Seq(_, _) => unreachable!(),
        Ty::Arr(_, _) => unreachable!(),
        Ty::Ref(_) => unreachable!(),
        _ => unreachable!(),
    }
}

#[cycle(put)]
fn put_fields(out: &mut Bytes, fields: &[Field], values: &[Value]) -> Result<(), NoMemory>
    requires { AreOf (fields_of (map plain_field fields.now)) (values_of (map plain_value values.now)) }
    ensures { OnOk result (out.new ≡ out.old ++ spellings (fields_of (map plain_field fields.now)) (values_of (map plain_value values.now)) (length out.old)) }
{
    let mut remaining = values;
    for field in fields {
        match remaining {
            [value, others @ ..] => {
                put(out, &field.ty, value)?;
                remaining = others;
            }
            [] => unreachable!(),
        }
    }
    Ok(())
}

fn put_members(out: &mut Bytes, members: &[Member], values: &[Value]) -> Result<(), NoMemory>
    requires { IsRecord (map plain_member members.now) (map plain_value values.now) }
    ensures { OnOk result (out.new ≡ out.old ++ spellings (layout_fields (map plain_member members.now)) (values_of (map plain_value values.now)) (length out.old)) }
{
    let mut remaining = values;
    for member in members {
        match remaining {
            [value, others @ ..] => {
                put(out, &member.ty, value)?;
                remaining = others;
            }
            [] => unreachable!(),
        }
    }
    Ok(())
}
