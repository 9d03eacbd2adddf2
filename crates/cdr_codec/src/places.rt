// Where values begin and end in octets that are known to have them: nothing is tested, and nothing is made.
ghost use Rattle.std.specs.Prelude.{◌≡◌, ◌≤◌, ◌<◌, ◌+◌, ◌*◌, ◌^◌, length, map, IfOk};
ghost use Rattle.type_layout.specs.Types.{fields_of};
ghost use Rattle.type_layout.specs.Views.{plain_type, plain_field};
ghost use Rattle.type_layout.specs.Members.{plain_member};
ghost use Rattle.type_layout.specs.Values.{layout_fields};
ghost use Rattle.type_layout.specs.Spelling.{gap};
ghost use Rattle.cdr_codec.specs.Reading.{times_at, value_at, fields_at};
ghost use Rattle.cdr_codec.specs.Widths.{octets_in};
ghost use Rattle.cdr_codec.specs.Places.{IsFound, end_of, behind_numbers, count_at as counted, places_of as begin};

use crate::width::{Width, width_of};
use pss_base::NoMemory;
use std::alloc::Global;
use type_layout::{Field, Member, Ty};

fn number_end(at: usize, width: Width) -> usize
    requires { at + 16 < 2 ^ 64 }
    ensures { result ≡ at + gap (octets_in width) at + octets_in width }
{
    at + width.gap(at) + width.octets()
}

// Between numbers of one width there is no padding.
fn numbers_end(at: usize, width: Width, count: u64) -> usize
    requires { at + gap (octets_in width) at + count * octets_in width < 2 ^ 64 }
    ensures { result ≡ behind_numbers (octets_in width) count at }
{
    if count == 0 {
        return at;
    }
    at + width.gap(at) + count as usize * width.octets()
}

// How many items or bytes follow, and where they do.
pub(crate) fn count_at(bytes: &[u8], at: usize) -> (u64, usize)
    requires { at + gap 4 at + 4 ≤ length bytes.now }
    ensures count { result.0 ≡ counted bytes.now at }
    ensures small { result.0 < 2 ^ 32 }
    ensures after { result.1 ≡ at + gap 4 at + 4 }
{
    let start = at + Width::Four.gap(at);
    (Width::Four.number(&bytes[start..]), start + 4)
}

fn text_end(bytes: &[u8], at: usize) -> usize
    requires { at + gap 4 at + 4 + counted bytes.now at ≤ length bytes.now }
    ensures { result ≡ at + gap 4 at + 4 + counted bytes.now at }
{
    let (count, first) = count_at(bytes, at);
    first + count as usize
}

#[cycle(end)]
pub(crate) fn value_end(ty: &Ty, bytes: &[u8], at: usize) -> usize
    requires place { at ≤ length bytes.now }
    requires found { IsFound (value_at (plain_type ty.now) bytes.now at) }
    ensures end { result ≡ end_of (value_at (plain_type ty.now) bytes.now at) }
    ensures within { result ≤ length bytes.now }
{
    if let Some(width) = width_of(ty) {
        return number_end(at, width);
    }
    match ty {
        Ty::Str(_) => text_end(bytes, at),
        Ty::Seq(item, _) => {
            let (count, first) = count_at(bytes, at);
            items_end(item, count, bytes, first)
        }
        Ty::Arr(item, count) => items_end(item, u64::from(*count), bytes, at),
        Ty::Struct(fields) => fields_end(fields.as_slice(), bytes, at),
        Ty::Ref(_) => number_end(number_end(at, Width::Four), Width::Eight),
        _ => unreachable!(),
    }
}

#[cycle(end)]
fn items_end(item: &Ty, count: u64, bytes: &[u8], at: usize) -> usize
    requires place { at ≤ length bytes.now }
    requires found { IsFound (times_at (value_at (plain_type item.now)) count bytes.now at) }
    ensures end { result ≡ end_of (times_at (value_at (plain_type item.now)) count bytes.now at) }
    ensures within { result ≤ length bytes.now }
{
    if let Some(width) = width_of(item) {
        return numbers_end(at, width, count);
    }
    let mut place = at;
    for _ in 0..count {
        place = value_end(item, bytes, place);
    }
    place
}

#[cycle(end)]
fn fields_end(fields: &[Field], bytes: &[u8], at: usize) -> usize
    requires place { at ≤ length bytes.now }
    requires found { IsFound (fields_at (fields_of (map plain_field fields.now)) bytes.now at) }
    ensures end { result ≡ end_of (fields_at (fields_of (map plain_field fields.now)) bytes.now at) }
    ensures within { result ≤ length bytes.now }
{
    let mut place = at;
    for field in fields {
        place = value_end(&field.ty, bytes, place);
    }
    place
}

pub(crate) fn members_end(members: &[Member], bytes: &[u8], at: usize) -> usize
    requires place { at ≤ length bytes.now }
    requires found { IsFound (fields_at (layout_fields (map plain_member members.now)) bytes.now at) }
    ensures end { result ≡ end_of (fields_at (layout_fields (map plain_member members.now)) bytes.now at) }
    ensures within { result ≤ length bytes.now }
{
    let mut place = at;
    for member in members {
        place = value_end(&member.ty, bytes, place);
    }
    place
}

/// Where the members begin.
pub(crate) fn places_of(
    alloc: Global,
    members: &[Member],
    bytes: &[u8],
    at: usize,
) -> Result<Vec<usize>, NoMemory>
    requires place { at ≤ length bytes.now }
    requires found { IsFound (fields_at (layout_fields (map plain_member members.now)) bytes.now at) }
    ensures { IfOk result (λ places. places.items ≡ begin (layout_fields (map plain_member members.now)) bytes.now at) }
{
    let mut places = Vec::with_capacity(alloc, members.len())?;
    let mut place = at;
    for member in members {
        places.push(place)?;
        place = value_end(&member.ty, bytes, place);
    }
    Ok(places)
}
