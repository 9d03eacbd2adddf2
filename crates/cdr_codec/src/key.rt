// The bytes of a key, from a record's octets and the places of its members.
ghost use Rattle.std.specs.Prelude.{◌≡◌, ◌≤◌, ◌<◌, ◌+◌, ◌-◌, ◌++◌, length, map, drop, take, slice_range, Some, IfOk, OnOk};
ghost use Rattle.std.specs.List.{flat_map};
ghost use Rattle.std.specs.Int.{w32, to_be_bytes};
ghost use Rattle.type_layout.specs.Views.{plain_type};
ghost use Rattle.type_layout.specs.Members.{plain_member};
ghost use Rattle.type_layout.specs.Spelling.{gap};
ghost use Rattle.type_layout.specs.Sound.{IsSound};
ghost use Rattle.cdr_codec.specs.Reading.{value_at};
ghost use Rattle.cdr_codec.specs.Widths.{octets_in};
ghost use Rattle.cdr_codec.specs.Places.{IsFound, count_at as counted, part_of, part_read, AreRead, indexes_at};

use crate::places::count_at;
use crate::width::{Width, width_of};
use pss_base::{Bytes, NoMemory};
use std::alloc::Global;
use type_layout::{KeyNo, Member, Schema, Ty, key_at};

pub(crate) fn indexes_of(schema: &Schema, key: KeyNo) -> &[u32]
    ensures { result.now ≡ indexes_at schema.now key }
{
    match key_at(schema, key) {
        Some(found) => found.members.as_slice(),
        None => &[],
    }
}

pub(crate) fn parts_of(
    alloc: Global,
    members: &[Member],
    bytes: &[u8],
    places: &[usize],
    indexes: &[u32],
) -> Result<Bytes, NoMemory>
    requires { AreRead (map plain_member members.now) bytes.now places.now }
    ensures { IfOk result (λ made. made ≡ flat_map (part_read (map plain_member members.now) bytes.now places.now) indexes.now) }
{
    let mut out = Bytes::new(alloc);
    put_parts(&mut out, members, bytes, places, indexes)?;
    Ok(out)
}

fn put_parts(
    out: &mut Bytes,
    members: &[Member],
    bytes: &[u8],
    places: &[usize],
    indexes: &[u32],
) -> Result<(), NoMemory>
    requires { AreRead (map plain_member members.now) bytes.now places.now }
    ensures { OnOk result (out.new ≡ out.old ++ flat_map (part_read (map plain_member members.now) bytes.now places.now) indexes.now) }
{
    for index in indexes {
        put_part_at(out, members, bytes, places, *index)?;
    }
    Ok(())
}

fn put_part_at(
    out: &mut Bytes,
    members: &[Member],
    bytes: &[u8],
    places: &[usize],
    index: u32,
) -> Result<(), NoMemory>
    requires { AreRead (map plain_member members.now) bytes.now places.now }
    ensures { OnOk result (out.new ≡ out.old ++ part_read (map plain_member members.now) bytes.now places.now index) }
{
    let Some(member) = members.get(index as usize) else {
        return Ok(());
    };
    let Some(place) = places.get(index as usize) else {
        return Ok(());
    };
    put_part(out, &member.ty, bytes, *place)
}

// A number stands in a key as in a record, and a string behind the number of its bytes alone.
fn put_part(out: &mut Bytes, ty: &Ty, bytes: &[u8], at: usize) -> Result<(), NoMemory>
    requires sound { IsSound (plain_type ty.now) }
    requires place { at ≤ length bytes.now }
    requires found { IsFound (value_at (plain_type ty.now) bytes.now at) }
    ensures { OnOk result (out.new ≡ out.old ++ part_of (plain_type ty.now) (value_at (plain_type ty.now) bytes.now at)) }
{
    if let Some(width) = width_of(ty) {
        return put_number(out, width, bytes, at);
    }
    match ty {
        Ty::Str(_) => put_text(out, bytes, at),
        Ty::Seq(_, _) => Ok(()),
        Ty::Arr(_, _) => Ok(()),
        Ty::Struct(_) => Ok(()),
        Ty::Ref(_) => Ok(()),
        _ => unreachable!(),
    }
}

fn put_number(out: &mut Bytes, width: Width, bytes: &[u8], at: usize) -> Result<(), NoMemory>
    requires { at + gap (octets_in width) at + octets_in width ≤ length bytes.now }
    ensures { OnOk result (out.new ≡ out.old ++ take (octets_in width) (drop (at + gap (octets_in width) at) bytes.now)) }
{
    let start = at + width.gap(at);
    out.extend(&bytes[start..start + width.octets()])
}

fn put_text(out: &mut Bytes, bytes: &[u8], at: usize) -> Result<(), NoMemory>
    requires some { 1 ≤ counted bytes.now at }
    requires within { at + gap 4 at + 4 + counted bytes.now at ≤ length bytes.now }
    ensures { OnOk result (out.new ≡ out.old ++ (to_be_bytes w32 (counted bytes.now at - 1) ++ slice_range bytes.now (at + gap 4 at + 4) (at + gap 4 at + 4 + (counted bytes.now at - 1)))) }
{
    let (count, first) = count_at(bytes, at);
    let len = (count - 1) as u32;
    out.extend(&len.to_be_bytes())?;
    out.extend(&bytes[first..first + len as usize])
}
