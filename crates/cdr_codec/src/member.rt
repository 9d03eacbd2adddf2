// One member of a record's octets.
ghost use Rattle.std.specs.Prelude.{◌≡◌, ◌≤◌, ◌<◌, Some, Ok, length, IfOk};
ghost use Rattle.std.specs.List.{slice_get};
ghost use Rattle.type_layout.specs.Views.{plain_type, plain_value};
ghost use Rattle.type_layout.specs.Sound.{IsSoundLayout};
ghost use Rattle.cdr_codec.specs.Reading.{value_at};
ghost use Rattle.cdr_codec.specs.Places.{IsFound, end_of};
ghost use Rattle.cdr_codec.specs.Spelled.{SpellsRecord};

use crate::fault::Stop;
use crate::places::members_end;
use crate::several::value_of;
use pss_base::{NoMemory, Steps};
use std::alloc::Global;
use std::marker::Brand;
use std::sync::ledger::{Blank, Ledger};
use type_layout::{Layout, Ty, Value};

/// The value of the member with this number, counted from 0, in octets that spell a record of the
/// layout. The members in front of it are passed over: of these no value is made, and of those behind
/// it nothing is read.
pub fn read_member(
    alloc: Global,
    layout: &Layout,
    bytes: &[u8],
    member: usize,
) -> Result<Value, NoMemory>
    requires sound { IsSoundLayout layout.now.members }
    requires there { member < length layout.now.members }
    requires spelled { SpellsRecord layout.now.members bytes.now }
    ensures { IfOk result (λ value. (s : SpellsRecord layout.now.members bytes.now) → slice_get s.values member ≡ Some (plain_value value)) }
{
    let members = layout.members.as_slice();
    let at = members_end(&members[..member], bytes, 1);
    value_at_place::<Brand>(alloc, &members[member].ty, bytes, at, Blank::new(1))
}

fn value_at_place<L: Ledger>(
    alloc: Global,
    ty: &Ty,
    bytes: &[u8],
    at: usize,
    blank: Blank,
) -> Result<Value, NoMemory>
    requires name { blank.name ≡ L.name }
    requires parts { blank.parts ≡ L.parts }
    requires some { 0 < blank.parts }
    requires place { at ≤ length bytes.now }
    requires found { IsFound (value_at (plain_type ty.now) bytes.now at) }
    ensures { IfOk result (λ value. value_at (plain_type ty.now) bytes.now at ≡ Ok (plain_value value, end_of (value_at (plain_type ty.now) bytes.now at))) }
{
    let mut steps = Steps::<L>::new(blank);
    match value_of(alloc, ty, bytes, at, &mut steps) {
        Ok((value, _)) => Ok(value),
        Err(Stop::Memory) => Err(NoMemory),
        Err(Stop::Fault(_)) => unreachable!(),
    }
}
