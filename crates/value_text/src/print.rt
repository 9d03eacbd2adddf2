// From values to texts.
ghost use Rattle.std.specs.Prelude.{◌≡◌, ◌++◌, ◌∷◌, ◌<◌, [], map, length, IfOk, OnOk, unwrap_or};
ghost use Rattle.std.specs.List.{flat_map, slice_get};
ghost use Rattle.std.specs.Fmt.{decimal, signed_decimal};
ghost use Rattle.type_layout.specs.Types.{fields_of, values_of};
ghost use Rattle.type_layout.specs.Views.{plain_type, plain_field, plain_fields, plain_value};
ghost use Rattle.type_layout.specs.Values.{Of, AreOf, EachOf};
ghost use Rattle.type_layout.specs.ShapeText.{listed};
ghost use Rattle.value_text.specs.Words.{truth_text};
ghost use Rattle.value_text.specs.Printed.{byte_text, reference_text, plain_text, items_in, parts_in, ordinal_in, each_printed, list_printed, printed, fields_printed};
ghost use Rattle.value_text.specs.Texts.{Spells};

use itoa::Buffer;
use pss_base::{Bytes, NoMemory, Pid, append_pid, hex_digit};
use std::alloc::Global;
use type_layout::{Field, Fields, PlacedNames, Ty, Value};

/// The text of a value of the type: numbers without leading zeros, bytes from a space to `~` as they are,
/// but the quote and `\` behind a `\`, and other bytes as `\x` and two digits with small letters. It is a
/// spelling of the value, so it is read as the same one (`spelling_stands`). It takes time and memory in
/// the length of that text.
pub fn print_value(alloc: Global, ty: &Ty, value: &Value) -> Result<Bytes, NoMemory>
    requires { Of (plain_type ty.now) (plain_value value.now) }
    ensures text { IfOk result (λ text. text ≡ printed (plain_type ty.now) (plain_value value.now)) }
    ensures spells { IfOk result (λ text. Spells (plain_type ty.now) (plain_value value.now) text) }
{
    let mut out = Bytes::new(alloc);
    put(&mut out, ty, value)?;
    Ok(out)
}

/// Adds the text of a value of the type to bytes, as `print_value` makes it. After `NoMemory` a part of it may stand behind them.
pub fn append_value(out: &mut Bytes, ty: &Ty, value: &Value) -> Result<(), NoMemory>
    requires { Of (plain_type ty.now) (plain_value value.now) }
    ensures { OnOk result (out.new ≡ out.old ++ printed (plain_type ty.now) (plain_value value.now)) }
{
    put(out, ty, value)
}

fn put_byte(out: &mut Bytes, quote: u8, byte: u8) -> Result<(), NoMemory>
    ensures { OnOk result (out.new ≡ out.old ++ byte_text quote byte) }
{
    if byte == quote || byte == b'\\' {
        return out.extend(&[b'\\', byte]);
    }
    if matches!(byte, b' '..=b'~') {
        return out.push(byte);
    }
    out.extend(&[b'\\', b'x', hex_digit(byte / 16), hex_digit(byte % 16)])
}

fn put_bytes(out: &mut Bytes, quote: u8, bytes: &[u8]) -> Result<(), NoMemory>
    ensures { OnOk result (out.new ≡ out.old ++ flat_map (byte_text quote) bytes.now) }
{
    for byte in bytes {
        put_byte(out, quote, *byte)?;
    }
    Ok(())
}

fn put_reference(out: &mut Bytes, pid: Option<Pid>) -> Result<(), NoMemory>
    ensures { OnOk result (out.new ≡ out.old ++ reference_text pid) }
{
    let Some(pid) = pid else {
        return out.extend(b"nil");
    };
    append_pid(out, pid)
}

fn put_truth(out: &mut Bytes, truth: bool) -> Result<(), NoMemory>
    ensures { OnOk result (out.new ≡ out.old ++ truth_text truth) }
{
    out.extend(if truth { b"TRUE" } else { b"FALSE" })
}

// A number of one or two digits.
#[tactic(auto, using(std::proofs::lemmas::Fmt::decimal_digit, crate::proofs::Printing::two_digits))]
#[inline(always)]
fn put_short(out: &mut Bytes, number: u8) -> Result<(), NoMemory>
    requires { number < 100 }
    ensures { OnOk result (out.new ≡ out.old ++ decimal number) }
{
    if number < 10 {
        return out.push(b'0' + number);
    }
    out.push(b'0' + number / 10)?;
    out.push(b'0' + number % 10)
}

// A number of any length.
#[inline(never)]
fn put_long(out: &mut Bytes, number: i128) -> Result<(), NoMemory>
    ensures { OnOk result (out.new ≡ out.old ++ signed_decimal number) }
{
    out.extend(Buffer::new().format(number).as_bytes())
}

/// Adds the text of a number to bytes, which is that of a value of each type of numbers. After `NoMemory` a part of it may stand
/// behind them.
#[inline(always)]
pub fn append_number(out: &mut Bytes, number: i128) -> Result<(), NoMemory>
    ensures { OnOk result (out.new ≡ out.old ++ signed_decimal number) }
{
    match number {
        0..=99 => put_short(out, number as u8),
        _ => put_long(out, number),
    }
}

// Bytes between two quotes.
fn put_quoted(out: &mut Bytes, quote: u8, bytes: &[u8]) -> Result<(), NoMemory>
    ensures { OnOk result (out.new ≡ out.old ++ quote ∷ (flat_map (byte_text quote) bytes.now ++ quote ∷ [])) }
{
    out.push(quote)?;
    put_bytes(out, quote, bytes)?;
    out.push(quote)?;
    Ok(())
}

fn put_name(out: &mut Bytes, names: &PlacedNames, ordinal: u32) -> Result<(), NoMemory>
    requires { ordinal < length names.now }
    ensures { OnOk result (out.new ≡ out.old ++ unwrap_or (slice_get names.now ordinal) []) }
{
    out.extend(names.as_slice()[ordinal as usize].as_slice())?;
    Ok(())
}

// What is printed without its type.
fn put_plain(out: &mut Bytes, value: &Value) -> Result<(), NoMemory>
    ensures { OnOk result (out.new ≡ out.old ++ plain_text (plain_value value.now)) }
{
    match value {
        Value::Int(number) => append_number(out, *number),
        Value::Char(byte) => put_quoted(out, b'\'', &[*byte]),
        Value::Bool(truth) => put_truth(out, *truth),
        Value::Str(bytes) => put_quoted(out, b'"', bytes.as_slice()),
        Value::Ref(pid) => put_reference(out, *pid),
        Value::Enum(_) => Ok(()),
        Value::List(_) => Ok(()),
        Value::Struct(_) => Ok(()),
    }
}

fn items_of(value: &Value) -> &[Value]
    ensures { values_of (map plain_value result.now) ≡ items_in (plain_value value.now) }
{
    match value {
        Value::List(items) => items.as_slice(),
        _ => &[],
    }
}

fn parts_of(value: &Value) -> &[Value]
    ensures { values_of (map plain_value result.now) ≡ parts_in (plain_value value.now) }
{
    match value {
        Value::Struct(parts) => parts.as_slice(),
        _ => &[],
    }
}

fn ordinal_of(value: &Value) -> u32
    ensures { result ≡ ordinal_in (plain_value value.now) }
{
    match value {
        Value::Enum(ordinal) => *ordinal,
        _ => 0,
    }
}

#[cycle(put)]
#[tactic(auto, using(crate::proofs::Printing::parts_fit, crate::proofs::Printing::ordinal_fits))]
fn put(out: &mut Bytes, ty: &Ty, value: &Value) -> Result<(), NoMemory>
    requires { Of (plain_type ty.now) (plain_value value.now) }
    ensures { OnOk result (out.new ≡ out.old ++ printed (plain_type ty.now) (plain_value value.now)) }
{
    match ty {
        Ty::Short => put_plain(out, value),
        Ty::Long => put_plain(out, value),
        Ty::LongLong => put_plain(out, value),
        Ty::UShort => put_plain(out, value),
        Ty::ULong => put_plain(out, value),
        Ty::ULongLong => put_plain(out, value),
        Ty::Char => put_plain(out, value),
        Ty::Boolean => put_plain(out, value),
        Ty::Octet => put_plain(out, value),
        Ty::Str(_) => put_plain(out, value),
        Ty::Ref(_) => put_plain(out, value),
        Ty::Enum(names) => put_name(out, names, ordinal_of(value)),
        Ty::Seq(item, _) => put_items(out, item, items_of(value)),
        Ty::Arr(item, _) => put_items(out, item, items_of(value)),
        Ty::Struct(fields) => put_parts(out, fields, parts_of(value)),
    }
}

#[cycle(put)]
fn put_items(out: &mut Bytes, item: &Ty, items: &[Value]) -> Result<(), NoMemory>
    requires { EachOf (Of (plain_type item.now)) (values_of (map plain_value items.now)) }
    ensures { OnOk result (out.new ≡ out.old ++ list_printed (printed (plain_type item.now)) (values_of (map plain_value items.now))) }
{
    out.push(b'[')?;
    put_each(out, item, items)?;
    out.push(b']')?;
    Ok(())
}

#[cycle(put)]
fn put_each(out: &mut Bytes, item: &Ty, items: &[Value]) -> Result<(), NoMemory>
    requires { EachOf (Of (plain_type item.now)) (values_of (map plain_value items.now)) }
    ensures { OnOk result (out.new ≡ out.old ++ listed (each_printed (printed (plain_type item.now)) (values_of (map plain_value items.now)))) }
{
    let [first, others @ ..] = items else {
        return Ok(());
    };
    put(out, item, first)?;
    for value in others {
        out.push(b',')?;
        put(out, item, value)?;
    }
    Ok(())
}

#[cycle(put)]
fn put_parts(out: &mut Bytes, fields: &Fields, parts: &[Value]) -> Result<(), NoMemory>
    requires { AreOf (fields_of (plain_fields fields.now)) (values_of (map plain_value parts.now)) }
    ensures { OnOk result (out.new ≡ out.old ++ 123 ∷ (listed (fields_printed (fields_of (plain_fields fields.now)) (values_of (map plain_value parts.now))) ++ 125 ∷ [])) }
{
    out.push(b'{')?;
    put_fields(out, fields.as_slice(), parts)?;
    out.push(b'}')?;
    Ok(())
}

#[cycle(put)]
fn put_field(out: &mut Bytes, field: &Field, value: &Value) -> Result<(), NoMemory>
    requires { Of (plain_field field.now).type (plain_value value.now) }
    ensures { OnOk result (out.new ≡ out.old ++ printed (plain_field field.now).type (plain_value value.now)) }
{
    put(out, &field.ty, value)
}

#[cycle(put)]
fn put_fields(out: &mut Bytes, fields: &[Field], values: &[Value]) -> Result<(), NoMemory>
    requires { AreOf (fields_of (map plain_field fields.now)) (values_of (map plain_value values.now)) }
    ensures { OnOk result (out.new ≡ out.old ++ listed (fields_printed (fields_of (map plain_field fields.now)) (values_of (map plain_value values.now)))) }
{
    let [first, other_fields @ ..] = fields else {
        return Ok(());
    };
    let [value, others @ ..] = values else {
        unreachable!()
    };
    put_field(out, first, value)?;
    let mut remaining = others;
    for field in other_fields {
        match remaining {
            [value, others @ ..] => {
                out.push(b',')?;
                put_field(out, field, value)?;
                remaining = others;
            }
            [] => unreachable!(),
        }
    }
    Ok(())
}
