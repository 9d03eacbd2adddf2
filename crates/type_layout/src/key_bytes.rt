// The bytes that keys are compared by.
ghost use Rattle.std.specs.Prelude.{◌≡◌, ◌+◌, ◌++◌, ◌^◌, ◌<◌, List, length, map, IfOk, OnOk};
ghost use Rattle.std.specs.List.{flat_map};
ghost use Rattle.std.specs.Int.{w32, to_be_bytes};
ghost use Rattle.type_layout.specs.Types.{Int};
ghost use Rattle.type_layout.specs.Views.{plain_type, plain_value};
ghost use Rattle.type_layout.specs.Members.{plain_member};
ghost use Rattle.type_layout.specs.Values.{Of, IsRecord};
ghost use Rattle.type_layout.specs.Sound.{IsSoundSchema};
ghost use Rattle.type_layout.specs.Keys.{key_part, part_at, key_bytes, IsRecordWith, FitsAt, AreFit, chosen, key_members, parts, value_bytes};

use crate::numbers::{key_at, members_at};
use crate::{KeyNo, Member, Record, Schema, Ty, Value};
use pss_base::{Bytes, NoMemory};
use std::alloc::Global;

/// The bytes of a key in a record of a home that has the key: its members' values in the key's
/// order, without padding. Numbers, characters and booleans stand in their width, big-endian; an
/// enumerator in four octets; a string behind its number of bytes in four octets. Two records have
/// the same bytes exactly where these members have the same values. This form is the project's own.
///
/// `NoMemory`: there was no room for the bytes.
pub fn key_of(alloc: Global, schema: &Schema, key: KeyNo, value: &Record) -> Result<Bytes, NoMemory>
    requires sound { IsSoundSchema schema.now }
    requires of { IsRecordWith schema.now key value.now }
    ensures { IfOk result (λ bytes. bytes ≡ key_bytes schema.now key value.now) }
{
    let mut bytes = Bytes::new(alloc);
    let Some(found) = key_at(schema, key) else {
        return Ok(bytes);
    };
    let members = members_at(schema, found.home);
    put_parts(
        &mut bytes,
        members,
        value.0.as_slice(),
        found.members.as_slice(),
    )?;
    Ok(bytes)
}

/// The bytes of a key whose members have these values, in the key's order: those that `key_of` gives of
/// a record in which they have them (`key_values_tell`). `NoMemory`: there was no room for the bytes.
pub fn key_of_values(
    alloc: Global,
    schema: &Schema,
    key: KeyNo,
    values: &[Value],
) -> Result<Bytes, NoMemory>
    requires { IsRecord (key_members schema.now key) (map plain_value values.now) }
    ensures { IfOk result (λ bytes. bytes ≡ value_bytes schema.now key (map plain_value values.now)) }
{
    let mut bytes = Bytes::new(alloc);
    let Some(found) = key_at(schema, key) else {
        return Ok(bytes);
    };
    let members = members_at(schema, found.home);
    put_values(&mut bytes, members, found.members.as_slice(), values)?;
    Ok(bytes)
}

fn put_values(
    bytes: &mut Bytes,
    members: &[Member],
    indexes: &[u32],
    values: &[Value],
) -> Result<(), NoMemory>
    requires { IsRecord (chosen (map plain_member members.now) indexes.now) (map plain_value values.now) }
    ensures { OnOk result (bytes.new ≡ bytes.old ++ parts (chosen (map plain_member members.now) indexes.now) (map plain_value values.now)) }
{
    let mut place: usize = 0;
    for index in indexes {
        let Some(member) = members.get(*index as usize) else {
            continue;
        };
        let Some(value) = values.get(place) else {
            unreachable!()
        };
        put_part(bytes, &member.ty, value)?;
        place += 1;
    }
    Ok(())
}

fn put_parts(
    bytes: &mut Bytes,
    members: &[Member],
    values: &[Value],
    indexes: &[u32],
) -> Result<(), NoMemory>
    requires { AreFit (map plain_member members.now) (map plain_value values.now) indexes.now }
    ensures { OnOk result (bytes.new ≡ bytes.old ++ flat_map (part_at (map plain_member members.now) (map plain_value values.now)) indexes.now) }
{
    for index in indexes {
        put_part_at(bytes, members, values, *index)?;
    }
    Ok(())
}

fn put_part_at(
    bytes: &mut Bytes,
    members: &[Member],
    values: &[Value],
    index: u32,
) -> Result<(), NoMemory>
    requires { FitsAt (map plain_member members.now) (map plain_value values.now) index }
    ensures { OnOk result (bytes.new ≡ bytes.old ++ part_at (map plain_member members.now) (map plain_value values.now) index) }
{
    let Some(member) = members.get(index as usize) else {
        return Ok(());
    };
    let Some(value) = values.get(index as usize) else {
        return Ok(());
    };
    put_part(bytes, &member.ty, value)
}

fn put_part(bytes: &mut Bytes, ty: &Ty, value: &Value) -> Result<(), NoMemory>
    requires { Of (plain_type ty.now) (plain_value value.now) }
    ensures { OnOk result (bytes.new ≡ bytes.old ++ key_part (plain_type ty.now) (plain_value value.now)) }
{
    match value {
        Value::Int(number) => put_integer(bytes, ty, *number),
        Value::Char(code) => bytes.extend(&code.to_be_bytes()),
        Value::Bool(truth) => bytes.extend(&u8::from(*truth).to_be_bytes()),
        Value::Enum(ordinal) => bytes.extend(&ordinal.to_be_bytes()),
        Value::Str(text) => put_text(bytes, text.as_slice()),
        Value::List(_) => Ok(()),
        Value::Struct(_) => Ok(()),
        Value::Ref(_) => Ok(()),
    }
}

fn put_integer(bytes: &mut Bytes, ty: &Ty, number: i128) -> Result<(), NoMemory>
    requires { Of (plain_type ty.now) (Int number) }
    ensures { OnOk result (bytes.new ≡ bytes.old ++ key_part (plain_type ty.now) (Int number)) }
{
    match ty {
        Ty::Short => bytes.extend(&(number as i16).cast_unsigned().to_be_bytes()),
        Ty::Long => bytes.extend(&(number as i32).cast_unsigned().to_be_bytes()),
        Ty::LongLong => bytes.extend(&(number as i64).cast_unsigned().to_be_bytes()),
        Ty::UShort => bytes.extend(&(number as u16).to_be_bytes()),
        Ty::ULong => bytes.extend(&(number as u32).to_be_bytes()),
        Ty::ULongLong => bytes.extend(&(number as u64).to_be_bytes()),
        Ty::Octet => bytes.extend(&(number as u8).to_be_bytes()),
        _ => unreachable!(),
    }
}

// A text behind its number of bytes.
fn put_text(bytes: &mut Bytes, text: &[u8]) -> Result<(), NoMemory>
    requires { length text.now + 1 < 2 ^ 32 }
    ensures { OnOk result (bytes.new ≡ bytes.old ++ (to_be_bytes w32 (length text.now) ++ text.now)) }
{
    bytes.extend(&(text.len() as u32).to_be_bytes())?;
    bytes.extend(text)
}
