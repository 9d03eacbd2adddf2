// From octets to records.
ghost use Rattle.std.specs.Prelude.{◌≡◌, ◌≤◌, ◌<◌, ◌+◌, ◌-◌, ◌⊎◌, List, length, IfOk, IfErr, MatchResult};
ghost use Rattle.type_layout.specs.Types.{PlainValue};
ghost use Rattle.type_layout.specs.Values.{IsRecord};
ghost use Rattle.type_layout.specs.Sound.{IsSoundLayout};
ghost use Rattle.type_layout.specs.Spelling.{record_spelling};
ghost use Rattle.cdr_codec.specs.Primitives.{IsRefused, record_pieces};
ghost use Rattle.cdr_codec.specs.Steps.{steps_of, steps_until};
ghost use Rattle.cdr_codec.specs.Taken.{Took, members_take};
ghost use Rattle.cdr_codec.specs.declared.fault.RecordFault.{RecordFault as Refusal};
ghost use Rattle.cdr_codec.specs.Reading.{Gives, Answers, record_at};

use crate::fault::{RecordFault, Stop};
use crate::several::members_of;
use crate::single::flag_of;
use pss_base::Steps;
use std::alloc::Global;
use std::marker::Brand;
use std::sync::ledger::{Blank, Ledger};
use type_layout::{Layout, Record};

/// The record of a sound layout that the octets spell, all of them. `found` says that they spell it, and
/// `only` that octets which spell a record are never refused. The refusals are those of `RecordFault`:
/// some record of the layout has the octets up to a primitive, none has them through it, and it is
/// refused with this fault (`refused`); and where that holds, no other answer comes (`always`). Here the
/// octets of a string and its NUL are one primitive, and `BadNul` has the place of the first wrong one: some
/// record has the octets up to that one, none has it as well (`bad_nul_has_the_first_wrong_octet`).
/// Octets have a record or a refusal, one of them (`octets_are_a_record_or_refused`).
///
/// A step is one number, or one string with its length; the padding in front is part of it. A record takes
/// as many as it has of these (`taken`), and a refusal as many as stand in front of what is refused, and
/// one for the number that was begun (`until`). There are at most as many as octets, and one more
/// (`steps`). Memory is taken for what was read, and for a length no more than for as many values as octets
/// are left. The depth of calls is that of the types.
pub fn decode_record<L: Ledger>(
    alloc: Global,
    layout: &Layout,
    bytes: &[u8],
    steps: &mut Steps<L>,
) -> Result<Record, RecordFault>
    ensures found { IsSoundLayout layout.now.members → IfOk result (λ v. IsRecord layout.now.members v × (bytes.now ≡ record_spelling layout.now.members v)) }
    ensures only { IsSoundLayout layout.now.members → (v : List PlainValue) → IsRecord layout.now.members v → bytes.now ≡ record_spelling layout.now.members v → MatchResult result (λ w. w ≡ v) (λ e. e ≡ RecordFault.NoMemory) }
    ensures refused { IsSoundLayout layout.now.members → IfErr result (λ e. (e ≡ RecordFault.NoMemory) ⊎ IsRefused layout.now.members bytes.now e) }
    ensures always { IsSoundLayout layout.now.members → (f : Refusal) → IsRefused layout.now.members bytes.now f → MatchResult result (λ v. ⊥) (λ e. (e ≡ f) ⊎ (e ≡ RecordFault.NoMemory)) }
    ensures steps { steps.new - steps.old ≤ length bytes.now + 1 }
    ensures taken { IsSoundLayout layout.now.members → IfOk result (λ v. steps.new ≡ steps.old + steps_of (record_pieces layout.now.members v)) }
    ensures until { IsSoundLayout layout.now.members → (f : Refusal) → (r : IsRefused layout.now.members bytes.now f) → (result ≡ Err RecordFault.NoMemory) ⊎ (steps.new ≡ steps.old + steps_until r) }
{
    answer(alloc, layout, bytes, steps)
}

/// As `decode_record`, without a count of steps.
pub fn decode(alloc: Global, layout: &Layout, bytes: &[u8]) -> Result<Record, RecordFault>
    ensures found { IsSoundLayout layout.now.members → IfOk result (λ v. IsRecord layout.now.members v × (bytes.now ≡ record_spelling layout.now.members v)) }
    ensures only { IsSoundLayout layout.now.members → (v : List PlainValue) → IsRecord layout.now.members v → bytes.now ≡ record_spelling layout.now.members v → MatchResult result (λ w. w ≡ v) (λ e. e ≡ RecordFault.NoMemory) }
    ensures refused { IsSoundLayout layout.now.members → IfErr result (λ e. (e ≡ RecordFault.NoMemory) ⊎ IsRefused layout.now.members bytes.now e) }
    ensures always { IsSoundLayout layout.now.members → (f : Refusal) → IsRefused layout.now.members bytes.now f → MatchResult result (λ v. ⊥) (λ e. (e ≡ f) ⊎ (e ≡ RecordFault.NoMemory)) }
{
    decode_from::<Brand>(alloc, layout, bytes, Blank::new(1))
}

// The same, with a count of steps that nobody reads.
fn decode_from<L: Ledger>(
    alloc: Global,
    layout: &Layout,
    bytes: &[u8],
    blank: Blank,
) -> Result<Record, RecordFault>
    requires name { blank.name ≡ L.name }
    requires parts { blank.parts ≡ L.parts }
    requires some { 0 < blank.parts }
    ensures found { IsSoundLayout layout.now.members → IfOk result (λ v. IsRecord layout.now.members v × (bytes.now ≡ record_spelling layout.now.members v)) }
    ensures only { IsSoundLayout layout.now.members → (v : List PlainValue) → IsRecord layout.now.members v → bytes.now ≡ record_spelling layout.now.members v → MatchResult result (λ w. w ≡ v) (λ e. e ≡ RecordFault.NoMemory) }
    ensures refused { IsSoundLayout layout.now.members → IfErr result (λ e. (e ≡ RecordFault.NoMemory) ⊎ IsRefused layout.now.members bytes.now e) }
    ensures always { IsSoundLayout layout.now.members → (f : Refusal) → IsRefused layout.now.members bytes.now f → MatchResult result (λ v. ⊥) (λ e. (e ≡ f) ⊎ (e ≡ RecordFault.NoMemory)) }
{
    let mut steps = Steps::<L>::new(blank);
    decode_record(alloc, layout, bytes, &mut steps)
}

fn answer<L: Ledger>(
    alloc: Global,
    layout: &Layout,
    bytes: &[u8],
    steps: &mut Steps<L>,
) -> Result<Record, RecordFault>
    ensures given { Answers result (record_at layout.now.members bytes.now) }
    ensures steps { steps.new ≤ steps.old + length bytes.now + 1 }
    ensures taken { (result ≡ Err RecordFault.NoMemory) ⊎ (steps.new ≡ steps.old + members_take layout.now.members bytes.now 0) }
{
    match record_of(alloc, layout, bytes, steps) {
        Ok(record) => Ok(record),
        Err(Stop::Memory) => Err(RecordFault::NoMemory),
        Err(Stop::Fault(fault)) => Err(fault),
    }
}

#[tactic(auto, unfolding(crate::specs::Reading::record_at, crate::specs::Reading::members_at, crate::specs::Taken::members_take))]
fn record_of<L: Ledger>(
    alloc: Global,
    layout: &Layout,
    bytes: &[u8],
    steps: &mut Steps<L>,
) -> Result<Record, Stop>
    ensures given { Gives (λ x. x) result (record_at layout.now.members bytes.now) }
    ensures steps { steps.new ≤ steps.old + length bytes.now + 1 }
    ensures taken { Took steps.old steps.new result (members_take layout.now.members bytes.now 0) }
{
    let (_, start) = flag_of(bytes, 0, steps)?;
    let (values, after) = members_of(alloc, layout.members.as_slice(), bytes, start, steps)?;
    if after != bytes.len() {
        return Err(Stop::Fault(RecordFault::Rest(after as u64)));
    }
    Ok(Record(values))
}
