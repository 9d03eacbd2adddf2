// Whether a value is of a type.
ghost use Rattle.std.specs.Prelude.{◌≡◌, ◌↔◌, map, true, IsTrue};
ghost use Rattle.type_layout.specs.Views.{plain_type, plain_field, plain_value};
ghost use Rattle.type_layout.specs.Types.{fields_of, values_of};
ghost use Rattle.type_layout.specs.Values.{Of, IsRecord, layout_fields, is_over as passes_bound, has_zero as has_a_zero, are_bytes, count};
ghost use Rattle.type_layout.specs.Members.{plain_member};
ghost use Rattle.type_layout.specs.Testing as test;

use crate::{Field, HomeNos, Layout, Member, PlacedNames, Record, Ty, Value};

/// Whether a value is of a type: a number in its range, a text without a byte 0 and within its
/// bound, a sequence within its bound, an array of exactly its number of elements, a struct of its
/// fields' values, an enumerator that there is, nil or a serial above 0 of a home that the type
/// lists.
pub fn is_of(value: &Value, ty: &Ty) -> bool
    ensures { IsTrue result ↔ Of (plain_type ty.now) (plain_value value.now) }
{
    passes(ty, value)
}

/// Whether the values are a record of the layout: as many as it has members, each of its member's
/// type.
pub fn is_record(layout: &Layout, values: &Record) -> bool
    ensures { IsTrue result ↔ IsRecord layout.now.members values.now }
{
    are_of_members(layout.members.as_slice(), values.0.as_slice())
}

fn are_of_members(members: &[Member], values: &[Value]) -> bool
    ensures { result ≡ test.are_of (layout_fields (map plain_member members.now)) (values_of (map plain_value values.now)) }
{
    let mut remaining = values;
    for member in members {
        let [value, others @ ..] = remaining else {
            return false;
        };
        if !passes(&member.ty, value) {
            return false;
        }
        remaining = others;
    }
    matches!(remaining, [])
}

fn is_between(value: &Value, low: i128, high: i128) -> bool
    ensures { result ≡ test.is_between low high (plain_value value.now) }
{
    match value {
        Value::Int(number) => low <= *number && *number <= high,
        _ => false,
    }
}

fn is_character(value: &Value) -> bool
    ensures { result ≡ test.is_character (plain_value value.now) }
{
    match value {
        Value::Char(code) => {
            // For the proof alone: the code that is read is an octet.
            let _code = *code;
            true
        }
        _ => false,
    }
}

fn is_truth(value: &Value) -> bool
    ensures { result ≡ test.is_truth (plain_value value.now) }
{
    matches!(value, Value::Bool(_))
}

fn is_over(bound: u32, count: usize) -> bool
    ensures { result ≡ passes_bound bound count }
{
    bound != 0 && (bound as usize) < count
}

#[tactic(auto, using(crate::proofs::Octets::bytes_pass))]
fn has_zero(bytes: &[u8]) -> bool
    ensures zero { result ≡ has_a_zero bytes.now }
    ensures bytes { are_bytes bytes.now ≡ true }
{
    bytes.iter().any(|byte| *byte == 0)
}

#[tactic(auto, using(crate::proofs::Counting::count_is))]
fn count_of(values: &[Value]) -> usize
    ensures { result ≡ count (values_of (map plain_value values.now)) }
{
    values.len()
}

fn is_text(value: &Value, bound: u32) -> bool
    ensures { result ≡ test.is_text bound (plain_value value.now) }
{
    match value {
        Value::Str(text) => {
            let bytes = text.as_slice();
            !has_zero(bytes) && !is_over(bound, bytes.len()) && bytes.len() < u32::MAX as usize
        }
        _ => false,
    }
}

fn is_enumerator(value: &Value, names: &PlacedNames) -> bool
    ensures { result ≡ test.is_enumerator names.now (plain_value value.now) }
{
    match value {
        Value::Enum(ordinal) => (*ordinal as usize) < names.as_slice().len(),
        _ => false,
    }
}

fn is_reference(value: &Value, homes: &HomeNos) -> bool
    ensures { result ≡ test.is_reference homes.now (plain_value value.now) }
{
    match value {
        Value::Ref(Some(pid)) => homes.contains(pid.home) && pid.serial > 0,
        Value::Ref(None) => true,
        _ => false,
    }
}

#[cycle(of_type)]
#[inline(always)]
fn passes(ty: &Ty, value: &Value) -> bool
    ensures { result ≡ test.is_of (plain_type ty.now) (plain_value value.now) }
{
    match ty {
        Ty::Short => is_between(value, -0x8000, 0x7fff),
        Ty::Long => is_between(value, -0x8000_0000, 0x7fff_ffff),
        Ty::LongLong => is_between(value, -0x8000_0000_0000_0000, 0x7fff_ffff_ffff_ffff),
        Ty::UShort => is_between(value, 0, 0xffff),
        Ty::ULong => is_between(value, 0, 0xffff_ffff),
        Ty::ULongLong => is_between(value, 0, 0xffff_ffff_ffff_ffff),
        Ty::Char => is_character(value),
        Ty::Boolean => is_truth(value),
        Ty::Octet => is_between(value, 0, 0xff),
        Ty::Str(bound) => is_text(value, *bound),
        Ty::Seq(item, bound) => is_sequence(item, *bound, value),
        Ty::Arr(item, count) => is_array(item, *count, value),
        Ty::Struct(fields) => is_struct(&fields.fields, value),
        Ty::Enum(names) => is_enumerator(value, names),
        Ty::Ref(homes) => is_reference(value, homes),
    }
}

#[cycle(of_type)]
fn is_sequence(item: &Ty, bound: u32, value: &Value) -> bool
    ensures { result ≡ test.is_sequence (test.is_of (plain_type item.now)) bound (plain_value value.now) }
{
    match value {
        Value::List(values) => {
            let items = &values.values;
            let count = count_of(items);
            !is_over(bound, count) && count <= u32::MAX as usize && every(item, items)
        }
        _ => false,
    }
}

#[cycle(of_type)]
fn is_array(item: &Ty, count: u32, value: &Value) -> bool
    ensures { result ≡ test.is_array (test.is_of (plain_type item.now)) count (plain_value value.now) }
{
    match value {
        Value::List(values) => {
            let items = &values.values;
            count_of(items) == count as usize && every(item, items)
        }
        _ => false,
    }
}

#[cycle(of_type)]
fn every(item: &Ty, values: &[Value]) -> bool
    ensures { result ≡ test.every (test.is_of (plain_type item.now)) (values_of (map plain_value values.now)) }
{
    for value in values {
        if !passes(item, value) {
            return false;
        }
    }
    true
}

#[cycle(of_type)]
fn is_struct(fields: &[Field], value: &Value) -> bool
    ensures { result ≡ test.is_struct (test.are_of (fields_of (map plain_field fields.now))) (plain_value value.now) }
{
    match value {
        Value::Struct(values) => are_of(fields, &values.values),
        _ => false,
    }
}

#[cycle(of_type)]
fn are_of(fields: &[Field], values: &[Value]) -> bool
    ensures { result ≡ test.are_of (fields_of (map plain_field fields.now)) (values_of (map plain_value values.now)) }
{
    let mut remaining = values;
    for field in fields {
        match remaining {
            [value, others @ ..] => {
                if !passes(&field.ty, value) {
                    return false;
                }
                remaining = others;
            }
            [] => return false,
        }
    }
    matches!(remaining, [])
}
