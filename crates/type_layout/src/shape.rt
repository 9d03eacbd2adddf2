// The shape text of a schema.
ghost use Rattle.std.specs.Prelude.{◌≡◌, ◌++◌, ◌∷◌, [], map, codes, IfOk, OnOk, if◌then◌else◌, ◌==◌};
ghost use Rattle.std.specs.List.{flat_map};
ghost use Rattle.std.specs.Fmt.{decimal};
ghost use Rattle.type_layout.specs.Types.{fields_of};
ghost use Rattle.type_layout.specs.Views.{plain_type, plain_field};
ghost use Rattle.type_layout.specs.Members.{plain_member};
ghost use Rattle.type_layout.specs.ShapeText.{shape_text, lines_from, home_lines, home_line, base_number, member_line, key_line, key_text, type_text, bound_text, listed, field_texts};

use crate::numbers::key_at;
use crate::{Field, Home, HomeNo, Key, KeyNo, Member, Schema, Ty};
use pss_base::{Bytes, NoMemory};
use std::alloc::Global;

/// The shape text: what a store of the schema keeps, a line for each home, member and key in order.
/// The text is the project's own. `NoMemory`: there was no room for it.
pub fn shape_of(alloc: Global, schema: &Schema) -> Result<Bytes, NoMemory>
    ensures { IfOk result (λ text. text ≡ shape_text schema.now) }
{
    let mut text = Bytes::new(alloc);
    let mut number: usize = 1;
    for home in schema.homes.as_slice() {
        put_home(&mut text, schema, number as u64, home)?;
        number += 1;
    }
    Ok(text)
}

#[tactic(auto, using(std::proofs::lemmas::Fmt::decimal_digit, std::proofs::lemmas::Fmt::decimal_step))]
fn put_decimal(text: &mut Bytes, number: u64) -> Result<(), NoMemory>
    ensures { OnOk result (text.new ≡ text.old ++ decimal number) }
{
    if number < 10 {
        return text.push(b'0' + number as u8);
    }
    put_decimal(text, number / 10)?;
    text.push(b'0' + (number % 10) as u8)?;
    Ok(())
}

fn put_home(text: &mut Bytes, schema: &Schema, number: u64, home: &Home) -> Result<(), NoMemory>
    ensures { OnOk result (text.new ≡ text.old ++ home_lines schema.now number home.now) }
{
    put_home_line(text, number, home)?;
    put_members(text, home.layout.members.as_slice())?;
    put_keys(text, schema, home.keys.as_slice())
}

fn number_of(base: Option<HomeNo>) -> u32
    ensures { result ≡ base_number base }
{
    match base {
        Some(home) => home.0,
        None => 0,
    }
}

fn put_home_line(text: &mut Bytes, number: u64, home: &Home) -> Result<(), NoMemory>
    ensures { OnOk result (text.new ≡ text.old ++ home_line number home.now) }
{
    text.extend(b"home ")?;
    put_decimal(text, number)?;
    text.push(b' ')?;
    put_decimal(text, u64::from(number_of(home.base)))?;
    text.push(b' ')?;
    text.extend(home.name.as_slice())?;
    text.push(b'\n')
}

fn put_members(text: &mut Bytes, members: &[Member]) -> Result<(), NoMemory>
    ensures { OnOk result (text.new ≡ text.old ++ flat_map member_line (map plain_member members.now)) }
{
    for member in members {
        put_member(text, member)?;
    }
    Ok(())
}

fn put_member(text: &mut Bytes, member: &Member) -> Result<(), NoMemory>
    ensures { OnOk result (text.new ≡ text.old ++ member_line (plain_member member.now)) }
{
    text.extend(b"member ")?;
    text.extend(member.name.as_slice())?;
    text.push(b' ')?;
    put_type(text, &member.ty)?;
    text.push(b'\n')
}

fn put_keys(text: &mut Bytes, schema: &Schema, keys: &[KeyNo]) -> Result<(), NoMemory>
    ensures { OnOk result (text.new ≡ text.old ++ flat_map (key_line schema.now) keys.now) }
{
    for key in keys {
        put_key(text, schema, *key)?;
    }
    Ok(())
}

fn put_key(text: &mut Bytes, schema: &Schema, key: KeyNo) -> Result<(), NoMemory>
    ensures { OnOk result (text.new ≡ text.old ++ key_line schema.now key) }
{
    let Some(found) = key_at(schema, key) else {
        return Ok(());
    };
    put_key_text(text, found)?;
    Ok(())
}

fn put_key_text(text: &mut Bytes, key: &Key) -> Result<(), NoMemory>
    ensures { OnOk result (text.new ≡ text.old ++ key_text key.now) }
{
    text.extend(b"key ")?;
    text.extend(key.name.as_slice())?;
    text.push(b' ')?;
    put_decimal(text, u64::from(key.home.0))?;
    text.push(b' ')?;
    put_indexes(text, key.members.as_slice())?;
    text.push(b'\n')
}

fn put_indexes(text: &mut Bytes, indexes: &[u32]) -> Result<(), NoMemory>
    ensures { OnOk result (text.new ≡ text.old ++ listed (map decimal indexes.now)) }
{
    let [first, others @ ..] = indexes else {
        return Ok(());
    };
    put_decimal(text, u64::from(*first))?;
    for index in others {
        text.push(b',')?;
        put_decimal(text, u64::from(*index))?;
    }
    Ok(())
}

fn put_names(text: &mut Bytes, names: &[Bytes]) -> Result<(), NoMemory>
    ensures { OnOk result (text.new ≡ text.old ++ listed names.now) }
{
    let [first, others @ ..] = names else {
        return Ok(());
    };
    text.extend(first.as_slice())?;
    for name in others {
        text.push(b',')?;
        text.extend(name.as_slice())?;
    }
    Ok(())
}

fn put_homes(text: &mut Bytes, homes: &[HomeNo]) -> Result<(), NoMemory>
    ensures { OnOk result (text.new ≡ text.old ++ listed (map (λ h. decimal h.0) homes.now)) }
{
    let [first, others @ ..] = homes else {
        return Ok(());
    };
    put_decimal(text, u64::from(first.0))?;
    for home in others {
        text.push(b',')?;
        put_decimal(text, u64::from(home.0))?;
    }
    Ok(())
}

fn put_bound(text: &mut Bytes, bound: u32) -> Result<(), NoMemory>
    ensures { OnOk result (text.new ≡ text.old ++ bound_text bound) }
{
    if bound == 0 {
        return Ok(());
    }
    text.push(b',')?;
    put_decimal(text, u64::from(bound))
}

fn put_string(text: &mut Bytes, bound: u32) -> Result<(), NoMemory>
    ensures { OnOk result (text.new ≡ text.old ++ (if bound == 0 then codes "string" else codes "string<" ++ decimal bound ++ codes ">")) }
{
    if bound == 0 {
        return text.extend(b"string");
    }
    text.extend(b"string<")?;
    put_decimal(text, u64::from(bound))?;
    text.push(b'>')
}

#[cycle(put_type)]
fn put_type(text: &mut Bytes, ty: &Ty) -> Result<(), NoMemory>
    ensures { OnOk result (text.new ≡ text.old ++ type_text (plain_type ty.now)) }
{
    match ty {
        Ty::Short => text.extend(b"short"),
        Ty::Long => text.extend(b"long"),
        Ty::LongLong => text.extend(b"longlong"),
        Ty::UShort => text.extend(b"ushort"),
        Ty::ULong => text.extend(b"ulong"),
        Ty::ULongLong => text.extend(b"ulonglong"),
        Ty::Char => text.extend(b"char"),
        Ty::Boolean => text.extend(b"boolean"),
        Ty::Octet => text.extend(b"octet"),
        Ty::Str(bound) => put_string(text, *bound),
        Ty::Seq(item, bound) => put_sequence(text, item, *bound),
        Ty::Arr(item, count) => put_array(text, item, *count),
        Ty::Struct(fields) => put_struct(text, &fields.fields),
        Ty::Enum(names) => put_enum(text, names.as_slice()),
        Ty::Ref(homes) => put_reference(text, homes.as_slice()),
    }
}

fn put_enum(text: &mut Bytes, names: &[Bytes]) -> Result<(), NoMemory>
    ensures { OnOk result (text.new ≡ text.old ++ (codes "enum(" ++ listed names.now ++ codes ")")) }
{
    text.extend(b"enum(")?;
    put_names(text, names)?;
    text.push(b')')
}

fn put_reference(text: &mut Bytes, homes: &[HomeNo]) -> Result<(), NoMemory>
    ensures { OnOk result (text.new ≡ text.old ++ (codes "ref(" ++ listed (map (λ h. decimal h.0) homes.now) ++ codes ")")) }
{
    text.extend(b"ref(")?;
    put_homes(text, homes)?;
    text.push(b')')
}

#[cycle(put_type)]
fn put_sequence(text: &mut Bytes, item: &Ty, bound: u32) -> Result<(), NoMemory>
    ensures { OnOk result (text.new ≡ text.old ++ (codes "seq(" ++ type_text (plain_type item.now) ++ bound_text bound ++ codes ")")) }
{
    text.extend(b"seq(")?;
    put_type(text, item)?;
    put_bound(text, bound)?;
    text.push(b')')
}

#[cycle(put_type)]
fn put_array(text: &mut Bytes, item: &Ty, count: u32) -> Result<(), NoMemory>
    ensures { OnOk result (text.new ≡ text.old ++ (codes "arr(" ++ type_text (plain_type item.now) ++ codes "," ++ decimal count ++ codes ")")) }
{
    text.extend(b"arr(")?;
    put_type(text, item)?;
    text.push(b',')?;
    put_decimal(text, u64::from(count))?;
    text.push(b')')
}

#[cycle(put_type)]
fn put_struct(text: &mut Bytes, fields: &[Field]) -> Result<(), NoMemory>
    ensures { OnOk result (text.new ≡ text.old ++ (codes "struct(" ++ listed (field_texts (fields_of (map plain_field fields.now))) ++ codes ")")) }
{
    text.extend(b"struct(")?;
    put_fields(text, fields)?;
    text.push(b')')
}

#[cycle(put_type)]
fn put_fields(text: &mut Bytes, fields: &[Field]) -> Result<(), NoMemory>
    ensures { OnOk result (text.new ≡ text.old ++ listed (field_texts (fields_of (map plain_field fields.now)))) }
{
    let [first, others @ ..] = fields else {
        return Ok(());
    };
    put_field(text, first)?;
    for field in others {
        text.push(b',')?;
        put_field(text, field)?;
    }
    Ok(())
}

#[cycle(put_type)]
fn put_field(text: &mut Bytes, field: &Field) -> Result<(), NoMemory>
    ensures { OnOk result (text.new ≡ text.old ++ ((plain_field field.now).name ++ codes ":" ++ type_text (plain_field field.now).type)) }
{
    text.extend(field.name.as_slice())?;
    text.push(b':')?;
    put_type(text, &field.ty)
}
