// A text is checked, and what it is is spoken.
ghost use Rattle.std.specs.Prelude.{◌≡◌, ◌⊎◌, ℕ, IfOk, IfSome, IsTrue};
ghost use Rattle.pss_base.specs.Causes.{HasCauseIf};
ghost use Rattle.pss_disk.specs.Moments.{Through};
ghost use Rattle.psdl_tree.specs.Views.{tree_view};
ghost use Rattle.pss_serving.specs.Checked.{IsOneThing, spoken_of};
ghost use Rattle.pss_serving.specs.Counts.{HasCauses, counts_of};
ghost use Rattle.pss_serving.specs.Outcomes.{EndsChecking, IsSpared, OfText, ends_before_script};
ghost use Rattle.line_service.specs.Spoken.{HasSpoken};
ghost use Rattle.line_service.specs.Turns.{IsWhole};
ghost use Rattle.pss_serving.specs.Spoken.{IsCut};
ghost use Rattle.pss_serving.specs.Told.{IsTold, is_fault};

use crate::reading::{SoundText, read_checked};
use crate::status::Status;
use crate::telling::status_of_unread;
use line_service::speak;
use psdl_syntax::print;
use pss_base::{Bytes, NoMemory, Source};
use pss_disk::Station;
use std::alloc::Global;
use type_layout::shape_of;

/// What became of what there was to say.
#[derive(Drop)]
pub enum Told {
    /// All of it was spoken.
    Whole,
    /// Speech failed: some first bytes of it were spoken.
    SpeakFault,
    /// There was no memory: nothing was spoken.
    NoMemory,
}

// The canonical text, a line between, and the shape text.
fn print_checked(alloc: Global, sound: &SoundText) -> Result<Bytes, NoMemory>
    ensures { IfOk result (λ bytes. bytes ≡ spoken_of (tree_view sound.now.tree) sound.now.schema) }
{
    let mut text = print(alloc, &sound.tree)?;
    text.extend(b"--\n")?;
    let shape = shape_of(alloc, &sound.schema)?;
    text.extend(shape.as_slice())?;
    Ok(text)
}

// Speaks what a text comes to.
fn tell<W: Station>(alloc: Global, sound: &SoundText, station: &mut W) -> Told
    ensures told { IsTold result (spoken_of (tree_view sound.now.tree) sound.now.schema) (W.now station.old).spoken (W.now station.new).spoken }
    ensures moments { Through (W.history station.old) (W.history station.new) (HasSpoken (W.now station.new).spoken (W.now station.old).disk) }
    ensures disk { (W.now station.new).disk ≡ (W.now station.old).disk }
    ensures content { W.content station.new ≡ W.content station.old }
    ensures cause { HasCauseIf (W.speak_faults station.old) (W.speak_faults station.new) (is_fault result) }
    ensures other { W.disk_faults station.new ≡ W.disk_faults station.old }
{
    match print_checked(alloc, sound) {
        Ok(text) => match speak(station, text.as_slice()) {
            Ok(()) => Told::Whole,
            Err(_) => Told::SpeakFault,
        },
        Err(_) => Told::NoMemory,
    }
}

/// Reads a schema's text and checks it, and speaks in one piece what it comes to, or its fault.
pub fn tell_checked<P: Source, W: Station>(alloc: Global, schema: &mut P, station: &mut W) -> Status
    ensures ends { EndsChecking result (P.left schema.old) (W.now station.old).spoken (W.now station.new).spoken (P.faults schema.old) (P.faults schema.new) }
    // The text is refused only where it is no sound one.
    ensures one { IsTrue (ends_before_script result) → IfSome (P.left schema.old) IsOneThing }
    ensures causes { (script : ℕ) → HasCauses result
        (counts_of P.faults (λ n. n) W.speak_faults W.disk_faults schema.old script station.old)
        (counts_of P.faults (λ n. n) W.speak_faults W.disk_faults schema.new script station.new) }
    // The store's file is not touched.
    ensures disk { ((W.now station.new).disk ≡ (W.now station.old).disk) × (W.content station.new ≡ W.content station.old) }
    // At each moment nothing was spoken or all, but where speech failed.
    ensures moments { Through (W.history station.old) (W.history station.new)
        (λ m. OfText (λ told. IsWhole told (W.now station.old).spoken m.spoken) (P.left schema.old) ⊎ IsCut result (W.now station.new).spoken m.spoken) }
    // Where the text is refused, a crash at any moment leaves the file as it was.
    ensures spared { IsTrue (ends_before_script result) → IsSpared (W.content station.old) (W.history station.old) (W.history station.new) (W.now station.old) }
{
    match read_checked(alloc, schema) {
        Ok(sound) => match tell(alloc, &sound, station) {
            Told::Whole => Status::Ok,
            Told::SpeakFault => Status::SpeakFault,
            Told::NoMemory => Status::NoMemory,
        },
        Err(why) => status_of_unread(alloc, why, station),
    }
}
