// Commands on types and homes: `is` and `descends`.
use crate::words::{integer_of, next_word};
use case_lines::{number_of, octets_of, short_number_of};
use pss_base::{Bytes, NoMemory, Pid};
use std::alloc::Global;
use type_layout::{HomeNo, Layout, Schema, Value, Values, descends, is_of};

fn append_answer(out: &mut Bytes, is_so: bool) -> Result<(), NoMemory> {
    out.extend(if is_so { b"yes" } else { b"no" })
}

// Numbers, as values.
fn numbers_of(alloc: Global, text: &[u8]) -> Result<Values, NoMemory> {
    let mut values = Values::new(alloc);
    let mut rest = text;
    for _ in 0..text.len() {
        let (word, behind) = next_word(rest);
        let Some(number) = integer_of(word) else {
            return Ok(values);
        };
        values.push(Value::Int(number))?;
        rest = behind;
    }
    Ok(values)
}

fn reference_of(text: &[u8]) -> Option<Value> {
    let (home, behind) = next_word(text);
    let (serial, _) = next_word(behind);
    Some(Value::Ref(Some(Pid {
        home: short_number_of(home)?,
        serial: number_of(serial)?,
    })))
}

// A value without parts whose kind is named.
fn plain_of(kind: &[u8], text: &[u8]) -> Option<Value> {
    let (word, _) = next_word(text);
    match kind {
        b"int" => Some(Value::Int(integer_of(word)?)),
        b"char" => Some(Value::Char(u8::try_from(integer_of(word)?).ok()?)),
        b"bool" => Some(Value::Bool(word == b"TRUE".as_slice())),
        b"enum" => Some(Value::Enum(short_number_of(word)?)),
        b"nil" => Some(Value::Ref(None)),
        b"ref" => reference_of(text),
        _ => None,
    }
}

// A value of whatever type: `int N`, `char N`, `bool TRUE`, `enum N`, `nil`, `ref HOME SERIAL`, `text OCTETS`, or `list N N ..` and
// `struct N N ..` of numbers.
fn value_of(alloc: Global, text: &[u8]) -> Result<Option<Value>, NoMemory> {
    let (kind, rest) = next_word(text);
    match kind {
        b"text" => Ok(Some(Value::Str(octets_of(alloc, next_word(rest).0)?))),
        b"list" => Ok(Some(Value::List(numbers_of(alloc, rest)?))),
        b"struct" => Ok(Some(Value::Struct(numbers_of(alloc, rest)?))),
        _ => Ok(plain_of(kind, rest)),
    }
}

/// `is VALUE`: for each member, whether the value is of its type.
pub fn append_is(
    alloc: Global,
    out: &mut Bytes,
    layout: &Layout,
    rest: &[u8],
) -> Result<(), NoMemory> {
    let Some(value) = value_of(alloc, rest)? else {
        return out.extend(b"no value");
    };
    let mut between: &[u8] = b"";
    for member in layout.members.as_slice() {
        out.extend(between)?;
        append_answer(out, is_of(&value, &member.ty))?;
        between = b" ";
    }
    Ok(())
}

fn homes_of(text: &[u8]) -> Option<(HomeNo, HomeNo)> {
    let (home, behind) = next_word(text);
    let (of, _) = next_word(behind);
    Some((HomeNo(short_number_of(home)?), HomeNo(short_number_of(of)?)))
}

/// `descends HOME OF`: whether the home with one number derives from that with the other, or is it.
pub fn append_descends(out: &mut Bytes, schema: &Schema, rest: &[u8]) -> Result<(), NoMemory> {
    match homes_of(rest) {
        Some((home, of)) => append_answer(out, descends(schema, home, of)),
        None => out.extend(b"no home"),
    }
}
