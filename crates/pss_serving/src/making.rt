// A store is made for the shape of a text.
ghost use Rattle.std.specs.Prelude.{◌≡◌, ◌⊎◌, ℕ, List, IfSome, IsTrue};
ghost use Rattle.std.specs.declared.option.Option.{Option};
ghost use Rattle.pss_base.specs.Causes.{HasCauseIf};
ghost use Rattle.pss_disk.specs.Moments.{Through};
ghost use Rattle.type_layout.specs.Sound.{IsSoundSchema};
ghost use Rattle.line_service.specs.Spoken.{HasSpoken};
ghost use Rattle.line_service.specs.Turns.{IsWhole};
ghost use Rattle.store_refusals.specs.Lines.{IsFilled, not_empty_line};
ghost use Rattle.pss_serving.specs.Checked.{IsOneThing};
ghost use Rattle.pss_serving.specs.Counts.{HasCauses, counts_of, has_disk_failed, has_speech_failed};
ghost use Rattle.pss_serving.specs.Making.{EndsMaking, MakesStore, TellsFilled, WholeMaking};
ghost use Rattle.pss_serving.specs.Outcomes.{IsSpared, ends_before_script};
ghost use Rattle.pss_serving.specs.Spoken.{IsCut};

use crate::reading::read_checked;
use crate::status::Status;
use crate::telling::status_of_unread;
use line_service::speak;
use psdl_sound::text_is_sound;
use pss_base::Source;
use pss_disk::Station;
use pss_recovery::{InitFault, Store};
use std::alloc::Global;
use store_refusals::NOT_EMPTY;
use type_layout::{Schema, shape_of};

/// Tells that no store is made in a file that has octets.
pub fn refuse_file<W: Station>(station: &mut W) -> Status
    ensures told { TellsFilled result (W.now station.old).spoken (W.now station.new).spoken }
    ensures moments { Through (W.history station.old) (W.history station.new) (HasSpoken (W.now station.new).spoken (W.now station.old).disk) }
    ensures content { W.content station.new ≡ W.content station.old }
    ensures speech { HasCauseIf (W.speak_faults station.old) (W.speak_faults station.new) (has_speech_failed result) }
    ensures disk { W.disk_faults station.new ≡ W.disk_faults station.old }
{
    match speak(station, NOT_EMPTY) {
        Ok(()) => Status::StoreRefused,
        Err(_) => Status::SpeakFault,
    }
}

// Makes the store of a schema.
fn make_store<W: Station>(alloc: Global, schema: &Schema, station: &mut W) -> Status
    requires { IsSoundSchema schema.now }
    ensures ends { (text : Option (List ℕ)) → MakesStore result schema.now
        (record { text = text; before = (W.now station.old).spoken; after = (W.now station.new).spoken; held = W.content station.old; holds = W.content station.new; disk = (W.now station.new).disk }) }
    ensures moments { Through (W.history station.old) (W.history station.new)
        (λ m. IsWhole not_empty_line (W.now station.old).spoken m.spoken ⊎ IsCut result (W.now station.new).spoken m.spoken) }
    ensures speech { HasCauseIf (W.speak_faults station.old) (W.speak_faults station.new) (has_speech_failed result) }
    ensures disk { HasCauseIf (W.disk_faults station.old) (W.disk_faults station.new) (has_disk_failed result) }
    ensures spared { IsTrue (ends_before_script result) → IsSpared (W.content station.old) (W.history station.old) (W.history station.new) (W.now station.old) }
    ensures filled { IsFilled (W.content station.old) → IsSpared (W.content station.old) (W.history station.old) (W.history station.new) (W.now station.old) }
{
    let Ok(shape) = shape_of(alloc, schema) else {
        return Status::NoMemory;
    };
    match Store::init(alloc, station, &shape) {
        Ok(()) => Status::Ok,
        Err(InitFault::NotEmpty) => refuse_file(station),
        Err(InitFault::DiskFault) => Status::DiskFault,
        Err(InitFault::NoMemory) => Status::NoMemory,
    }
}

/// Reads a schema's text and checks it, and makes a store of its shape, without objects, in an empty file. Nothing is spoken but
/// what is refused.
pub fn init_store<P: Source, W: Station>(alloc: Global, schema: &mut P, station: &mut W) -> Status
    ensures ends { EndsMaking result
        (record { text = P.left schema.old; before = (W.now station.old).spoken; after = (W.now station.new).spoken; held = W.content station.old; holds = W.content station.new; disk = (W.now station.new).disk })
        (P.faults schema.old) (P.faults schema.new) }
    // The text is refused only where it is no sound one.
    ensures one { IsTrue (ends_before_script result) → IfSome (P.left schema.old) IsOneThing }
    ensures causes { (script : ℕ) → HasCauses result
        (counts_of P.faults (λ n. n) W.speak_faults W.disk_faults schema.old script station.old)
        (counts_of P.faults (λ n. n) W.speak_faults W.disk_faults schema.new script station.new) }
    // At each moment nothing was spoken or a whole line, but where speech failed.
    ensures moments { Through (W.history station.old) (W.history station.new)
        (λ m. WholeMaking (P.left schema.old) (W.now station.old).spoken m.spoken ⊎ IsCut result (W.now station.new).spoken m.spoken) }
    // Where text or file are refused, a crash at any moment leaves the file as it was.
    ensures spared { IsTrue (ends_before_script result) → IsSpared (W.content station.old) (W.history station.old) (W.history station.new) (W.now station.old) }
    // Where the file has octets, so it does whatever the answer.
    ensures filled { IsFilled (W.content station.old) → IsSpared (W.content station.old) (W.history station.old) (W.history station.new) (W.now station.old) }
{
    text_is_sound();
    match read_checked(alloc, schema) {
        Ok(sound) => make_store(alloc, &sound.schema, station),
        Err(why) => status_of_unread(alloc, why, station),
    }
}
