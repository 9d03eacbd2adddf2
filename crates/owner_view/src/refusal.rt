// Why an object may not come to be as it would.
ghost use Rattle.std.specs.Prelude.{◌≡◌, nat_lt, length, if◌then◌else◌};
ghost use Rattle.pss_catalog.specs.Catalog.{object_spelling};
ghost use Rattle.pss_machine.specs.Operations.{PlainAnswer};
ghost use Rattle.pss_machine.specs.Alone.{unless_gone, stored};
ghost use Rattle.owner_view.specs.Overlay.{changes_in};
ghost use Rattle.owner_view.specs.Keyed.{all_keyed};
ghost use Rattle.type_layout.specs.declared.schema.Schema.{Schema};
ghost use Rattle.owner_view.specs.Seen.{Fits, plain_object};
ghost use Rattle.owner_view.specs.Sized.{IsSized};
ghost use Rattle.owner_view.specs.Views.{seen_with};
ghost use Rattle.owner_view.specs.Stored.{Sees};
ghost use Rattle.owner_view.specs.Refusal.{unless_refused};

use crate::committed::Committed;
use crate::object::Changed;
use crate::view::{View, first_gone, first_taken};
use pss_base::{Bytes, LONGEST_RECORD, Pid};
use pss_machine::Answer;
use type_layout::KeyNo;

/// Why an object may not come to be.
#[derive(Clone, Copy, Drop)]
pub enum Refusal {
    /// It refers to an object that is not there.
    Gone(Pid),
    /// Another object holds this key with the same bytes.
    Duplicate(KeyNo),
    /// Its record would have more than 8,000 octets.
    TooLarge,
}

/// Why an object with these references and keys may not come to be under a serial, where it may not.
#[inline(always)]
pub fn refusal_of<C: Committed>(
    view: &View<'_, C>,
    serial: u64,
    object: &Changed,
    references: &[Pid],
    pairs: &[(KeyNo, Bytes)],
) -> Option<Refusal>
    requires sees { Sees C.shows view.now }
    requires fits { Fits view.now.schema.now (plain_object object.now) }
    requires sized { IsSized view.now.schema.now object.now }
    requires pairs { pairs.now ≡ all_keyed view.now.schema.now (plain_object object.now) }
    ensures { (v : Sees C.shows view.now) (done : PlainAnswer) → unless_refused result serial (plain_object object.now) done ≡ unless_gone (seen_with v.catalog (changes_in view.now.overlay.now)) references.now (stored view.now.schema.now (seen_with v.catalog (changes_in view.now.overlay.now)) serial (plain_object object.now) done) }
{
    match first_gone(view, references) {
        Some(pid) => Some(Refusal::Gone(pid)),
        None => key_or_size(view, serial, object, pairs),
    }
}

#[inline(always)]
fn key_or_size<C: Committed>(
    view: &View<'_, C>,
    serial: u64,
    object: &Changed,
    pairs: &[(KeyNo, Bytes)],
) -> Option<Refusal>
    requires sees { Sees C.shows view.now }
    requires fits { Fits view.now.schema.now (plain_object object.now) }
    requires sized { IsSized view.now.schema.now object.now }
    requires pairs { pairs.now ≡ all_keyed view.now.schema.now (plain_object object.now) }
    ensures { (v : Sees C.shows view.now) (done : PlainAnswer) → unless_refused result serial (plain_object object.now) done ≡ stored view.now.schema.now (seen_with v.catalog (changes_in view.now.overlay.now)) serial (plain_object object.now) done }
{
    match first_taken(view, serial, pairs) {
        Some(key) => Some(Refusal::Duplicate(key)),
        None => size(object),
    }
}

fn size(object: &Changed) -> Option<Refusal>
    ensures { (S : Schema) → IsSized S object.now → result ≡ (if nat_lt 8000 (length (object_spelling S (plain_object object.now))) then Some Refusal.TooLarge else None) }
{
    if object.len > LONGEST_RECORD as u64 {
        Some(Refusal::TooLarge)
    } else {
        None
    }
}

impl Refusal {
    ghost use Rattle.pss_machine.specs.Operations.{plain_answer};
    ghost use Rattle.owner_view.specs.Refusal.{answer_of};

    /// The answer to an operation that is refused so.
    pub fn answer(self) -> Answer
        ensures { plain_answer result ≡ answer_of self }
    {
        match self {
            Refusal::Gone(pid) => Answer::Gone(pid),
            Refusal::Duplicate(key) => Answer::Duplicate(key),
            Refusal::TooLarge => Answer::TooLarge,
        }
    }
}
