// A script is served over the text of a schema and a store.
ghost use Rattle.std.specs.Prelude.{◌≡◌, ◌⊎◌, ℕ, List, IfSome, IsTrue};
ghost use Rattle.std.specs.declared.option.Option.{Option};
ghost use Rattle.pss_base.specs.Causes.{HasCauseIf};
ghost use Rattle.pss_disk.specs.Moments.{Through};
ghost use Rattle.type_layout.specs.Sound.{IsSoundSchema};
ghost use Rattle.line_service.specs.Spoken.{HasSpoken};
ghost use Rattle.pss_serving.specs.Checked.{IsOneThing};
ghost use Rattle.pss_serving.specs.Counts.{HasCauses, counts_of, has_disk_failed, has_read_failed, has_speech_failed};
ghost use Rattle.pss_serving.specs.Endings.{status_of_ending};
ghost use Rattle.pss_serving.specs.Outcomes.{EndsOverStore, EndsServing, IsAlwaysKept, IsAlwaysRight, IsKeptOver, IsOrWhole, IsSpared, TellsRefusal, WholeServing, call_of, ends_before_script};
ghost use Rattle.pss_serving.specs.Spoken.{IsCut};
ghost use Rattle.pss_serving.specs.declared.status.Status.TheVariants as status;

use crate::laws::scripts_are_right;
use crate::reading::{SoundText, read_checked};
use crate::status::Status;
use crate::telling::status_of_unread;
use line_service::{Ending, speak};
use psdl_sound::text_is_sound;
use pss_base::{Source, StoreStop};
use pss_disk::Station;
use pss_recovery::{Store, an_image_is_one_thing};
use script_service::serve_script;
use std::alloc::Global;
use store_refusals::{StoreRefusal, print_refusal, refusal};
use type_layout::Schema;

// How the call of the service ends, where serving its script does.
fn status_of(ending: Ending) -> Status
    ensures { result ≡ status_of_ending ending }
{
    match ending {
        Ending::End => Status::Ok,
        Ending::TooLong => Status::ScriptTooLong,
        Ending::ReadFault => Status::ReadFault,
        Ending::DiskFault => Status::DiskFault,
        Ending::SpeakFault => Status::SpeakFault,
        Ending::NoMemory => Status::NoMemory,
    }
}

// The schema alone: the tree is let go before the script is read.
fn schema_of(sound: SoundText) -> Schema
    ensures { result ≡ sound.schema }
{
    let SoundText { schema, .. } = sound;
    schema
}

/// Tells why a store is refused.
pub fn refuse_store<W: Station>(alloc: Global, why: StoreRefusal, station: &mut W) -> Status
    ensures told { TellsRefusal result why (W.now station.old).spoken (W.now station.new).spoken }
    ensures untold { result ≡ status.NoMemory → station.new ≡ station.old }
    ensures moments { Through (W.history station.old) (W.history station.new) (HasSpoken (W.now station.new).spoken (W.now station.old).disk) }
    ensures content { W.content station.new ≡ W.content station.old }
    ensures speech { HasCauseIf (W.speak_faults station.old) (W.speak_faults station.new) (has_speech_failed result) }
    ensures disk { W.disk_faults station.new ≡ W.disk_faults station.old }
{
    match print_refusal(alloc, why) {
        Ok(line) => match speak(station, line.as_slice()) {
            Ok(()) => Status::StoreRefused,
            Err(_) => Status::SpeakFault,
        },
        Err(_) => Status::NoMemory,
    }
}

// Mounts the store, and serves the script over it.
fn serve_store<C: Source, W: Station>(
    alloc: Global,
    schema: Schema,
    script: &mut C,
    station: &mut W,
) -> Status
    requires sound { IsSoundSchema schema }
    ensures ends { (text : Option (List ℕ)) → EndsOverStore result
        (record { schema = text; script = C.left script.old; left = C.left script.new; before = (W.now station.old).spoken; after = (W.now station.new).spoken; held = W.content station.old; holds = W.content station.new; disk = (W.now station.new).disk }) schema }
    ensures unread { IsTrue (ends_before_script result) → script.new ≡ script.old }
    ensures read { HasCauseIf (C.faults script.old) (C.faults script.new) (has_read_failed result) }
    ensures speech { HasCauseIf (W.speak_faults station.old) (W.speak_faults station.new) (has_speech_failed result) }
    ensures disk { HasCauseIf (W.disk_faults station.old) (W.disk_faults station.new) (has_disk_failed result) }
    ensures moments { Through (W.history station.old) (W.history station.new)
        (λ m. IsOrWhole schema (W.content station.old) (C.left script.old) (W.now station.old).spoken m.spoken ⊎ IsCut result (W.now station.new).spoken m.spoken) }
    ensures kept { IsKeptOver schema (W.content station.old) (C.left script.old) (W.now station.old).spoken (W.history station.old) (W.history station.new) (W.now station.old) }
    ensures spared { IsTrue (ends_before_script result) → IsSpared (W.content station.old) (W.history station.old) (W.history station.new) (W.now station.old) }
{
    an_image_is_one_thing();
    match Store::mount(alloc, station, &schema) {
        Ok(mounted) => status_of(serve_script(alloc, schema, mounted, script, station)),
        Err(fault) => match refusal(fault) {
            Ok(why) => refuse_store(alloc, why, station),
            Err(StoreStop::DiskFault) => Status::DiskFault,
            Err(StoreStop::NoMemory) => Status::NoMemory,
        },
    }
}

/// Reads a schema's text and checks it, mounts the store, and serves a script over it: the reply to each line is spoken in one
/// piece, when the store holds what the line committed.
pub fn run_script<P: Source, C: Source, W: Station>(
    alloc: Global,
    schema: &mut P,
    script: &mut C,
    station: &mut W,
) -> Status
    ensures ends { EndsServing result
        (call_of P.left C.left W.now W.content schema.old script.old script.new station.old station.new)
        (P.faults schema.old) (P.faults schema.new) }
    ensures unread { IsTrue (ends_before_script result) → script.new ≡ script.old }
    // Text and store are refused only where the text is no sound one, or has this store's schema alone.
    ensures one { IsTrue (ends_before_script result) → IfSome (P.left schema.old) IsOneThing }
    ensures causes { HasCauses result
        (counts_of P.faults C.faults W.speak_faults W.disk_faults schema.old script.old station.old)
        (counts_of P.faults C.faults W.speak_faults W.disk_faults schema.new script.new station.new) }
    // At each moment whole replies were spoken, but where speech failed.
    ensures moments { Through (W.history station.old) (W.history station.new)
        (λ m. WholeServing (P.left schema.old) (W.content station.old) (C.left script.old) (W.now station.old).spoken m.spoken ⊎ IsCut result (W.now station.new).spoken m.spoken) }
    // A crash leaves what was committed by then, and the commit that is answered next wholly or not at all.
    ensures kept { IsAlwaysKept (P.left schema.old) (W.content station.old) (C.left script.old) (W.now station.old).spoken (W.history station.old) (W.history station.new) (W.now station.old) }
    // Where text or store are refused, a crash at any moment leaves the file as it was.
    ensures spared { IsTrue (ends_before_script result) → IsSpared (W.content station.old) (W.history station.old) (W.history station.new) (W.now station.old) }
    // What was committed by then is as if done alone, in the order of commits, and what is stored are good objects under a next
    // serial between those that were committed and the machine's; and so of any first lines.
    ensures right { IsAlwaysRight (P.left schema.old) (C.left script.old) }
{
    text_is_sound();
    scripts_are_right();
    match read_checked(alloc, schema) {
        Ok(sound) => serve_store(alloc, schema_of(sound), script, station),
        Err(why) => status_of_unread(alloc, why, station),
    }
}
