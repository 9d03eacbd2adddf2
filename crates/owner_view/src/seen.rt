// An object as an owner sees it. Octets are decoded only where a member is asked for.
ghost use Rattle.std.specs.Prelude.{◌≡◌, ◌<◌, Some, IsSome, IfOk, length};
ghost use Rattle.std.specs.List.{slice_get};
ghost use Rattle.type_layout.specs.Views.{plain_value};
ghost use Rattle.type_layout.specs.Schemas.{home_at as home_in, members_at};
ghost use Rattle.type_layout.specs.Sound.{IsSoundSchema, IsSoundLayout};
ghost use Rattle.cdr_codec.specs.Spelled.{SpellsRecord};
ghost use Rattle.owner_view.specs.Seen.{IsShown, home_seen};

use crate::object::Changed;
use cdr_codec::{RecordFault, decode, read_member};
use pss_base::NoMemory;
use std::alloc::Global;
use type_layout::{HomeNo, Layout, Record, Schema, Value, home_at};

/// An object as an owner sees it.
#[derive(Clone, Copy)]
pub enum Seen<'a> {
    /// As it was committed: its home, and the octets of its record.
    Stored(HomeNo, &'a [u8]),
    /// As the owner changed it.
    Own(&'a Changed),
}

pub fn home_of(seen: Seen<'_>) -> HomeNo
    ensures { result ≡ home_seen seen.entry }
{
    match seen {
        Seen::Stored(home, _) => home,
        Seen::Own(object) => object.home,
    }
}

fn layout_at(schema: &Schema, home: HomeNo) -> &Layout
    requires { IsSome (home_in schema.now home) }
    ensures { result.now.members ≡ members_at schema.now home }
{
    match home_at(schema, home) {
        Some(found) => &found.layout,
        None => unreachable!(),
    }
}

/// The value of a member.
pub fn member_of(
    alloc: Global,
    schema: &Schema,
    seen: Seen<'_>,
    member: usize,
) -> Result<Value, NoMemory>
    requires sound { IsSoundSchema schema.now }
    requires shown { IsShown schema.now seen }
    requires there { member < length (members_at schema.now (home_seen seen)) }
    ensures { IfOk result (λ value. (s : IsShown schema.now seen.entry) → slice_get s.object.values member ≡ Some (plain_value value)) }
{
    match seen {
        Seen::Stored(home, bytes) => read_member(alloc, layout_at(schema, home), bytes, member),
        Seen::Own(object) => own_member(alloc, &object.record, member),
    }
}

/// The whole record.
pub fn record_of(alloc: Global, schema: &Schema, seen: Seen<'_>) -> Result<Record, NoMemory>
    requires sound { IsSoundSchema schema.now }
    requires shown { IsShown schema.now seen }
    ensures { IfOk result (λ made. (s : IsShown schema.now seen.entry) → made ≡ s.object.values) }
{
    match seen {
        Seen::Stored(home, bytes) => stored_record(alloc, layout_at(schema, home), bytes),
        Seen::Own(object) => object.record.copy(alloc),
    }
}

fn stored_record(alloc: Global, layout: &Layout, bytes: &[u8]) -> Result<Record, NoMemory>
    requires sound { IsSoundLayout layout.now.members }
    requires spelled { SpellsRecord layout.now.members bytes.now }
    ensures { IfOk result (λ made. (s : SpellsRecord layout.now.members bytes.now) → made ≡ s.values) }
{
    match decode(alloc, layout, bytes) {
        Ok(record) => Ok(record),
        Err(RecordFault::NoMemory) => Err(NoMemory),
        Err(_) => unreachable!(),
    }
}

fn own_member(alloc: Global, values: &Record, member: usize) -> Result<Value, NoMemory>
    requires { member < length values.now }
    ensures { IfOk result (λ value. slice_get values.now member ≡ Some (plain_value value)) }
{
    values.0.as_slice()[member].copy(alloc)
}
