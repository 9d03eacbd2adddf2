// The top call: what the words ask for is done.
ghost use Rattle.std.specs.Prelude.{◌≡◌, ◌≤◌, ◌⊎◌, ℕ, List, IsTrue};
ghost use Rattle.std.specs.declared.option.Option.{Option};
ghost use Rattle.pss_disk.specs.Moments.{Through};
ghost use Rattle.store_refusals.specs.Lines.{IsFilled};
ghost use Rattle.pss_serving.specs.Counts.{HasCauses, counts_of};
ghost use Rattle.pss_serving.specs.Outcomes.{IsAlwaysKept, IsAlwaysRight, IsSpared, call_of, ends_before_script};
ghost use Rattle.pss_serving.specs.Spoken.{IsCut};
ghost use Rattle.pss_daemon.specs.Complete.{IsComplete};
ghost use Rattle.pss_daemon.specs.Ends.{Ends, IsCheck, IsDemo, IsInit, IsNoPlan, IsRun, SaidWhole};
ghost use Rattle.pss_daemon.specs.Shows.{EndsShowing, WholeShowing};

use crate::forms::Plan;
use crate::planning::plan;
use line_service::speak;
use people_demo::{DemoStop, run_demo};
use pss_base::{Bytes, Source};
use pss_disk::Station;
use pss_recovery::an_image_is_one_thing;
use pss_serving::{
    Status, init_store, refuse_file, refuse_store, run_script, scripts_are_right, tell_checked,
};
use std::alloc::Global;

const USAGE: &[u8] =
    b"usage: pssd check SCHEMA | init SCHEMA STORE | run SCHEMA STORE | demo N STORE\n";

// Demonstrates a store of people.
fn demonstrate<W: Station>(alloc: Global, rounds: u32, station: &mut W) -> Status
    requires some { 1 ≤ rounds }
    requires few { rounds ≤ 1000 }
    ensures ends { (schema script left : Option (List ℕ)) → EndsShowing rounds result
        (record { schema = schema; script = script; left = left; before = (W.now station.old).spoken; after = (W.now station.new).spoken; held = W.content station.old; holds = W.content station.new; disk = (W.now station.new).disk }) }
    ensures causes { (schema script : ℕ) → HasCauses result
        (record { schema = schema; script = script; speech = W.speak_faults station.old; disk = W.disk_faults station.old })
        (record { schema = schema; script = script; speech = W.speak_faults station.new; disk = W.disk_faults station.new }) }
    ensures moments { Through (W.history station.old) (W.history station.new)
        (λ m. WholeShowing rounds (W.content station.old) (W.now station.old).spoken m.spoken ⊎ IsCut result (W.now station.new).spoken m.spoken) }
    ensures spared { IsTrue (ends_before_script result) → IsSpared (W.content station.old) (W.history station.old) (W.history station.new) (W.now station.old) }
    ensures filled { IsFilled (W.content station.old) → IsSpared (W.content station.old) (W.history station.old) (W.history station.new) (W.now station.old) }
{
    match run_demo(alloc, rounds, station) {
        Ok(()) => Status::Ok,
        Err(DemoStop::NotEmpty) => refuse_file(station),
        Err(DemoStop::Refused(why)) => refuse_store(alloc, why, station),
        Err(DemoStop::DiskFault) => Status::DiskFault,
        Err(DemoStop::SpeakFault) => Status::SpeakFault,
        Err(DemoStop::NoMemory) => Status::NoMemory,
    }
}

/// Does what the words ask for, the program's own name left out.
///
/// Under `check SCHEMA` the text is read and checked, and its canonical text, the line `--` and the shape of its records are
/// spoken in one piece. Under `init SCHEMA STORE` a store of that shape is made in an empty file. Under `run SCHEMA STORE` the
/// store is mounted, and then each line of the script is served: its reply is spoken in one piece, when the store holds what the
/// line committed. Under `demo N STORE` a store of people is made in an empty file, so many rounds are served over it, and what
/// they came to is spoken.
///
/// The order is: words, schema, store, script. The first fault ends the call. Where speaking fails, the status is
/// `SpeakFault`, whatever was to be told.
pub fn pssd<P: Source, C: Source, W: Station>(
    alloc: Global,
    words: &[Bytes],
    schema: &mut P,
    script: &mut C,
    station: &mut W,
) -> Status
    // How the call ends, and what was spoken by then.
    ensures ends { Ends result words.now
        (call_of P.left C.left W.now W.content schema.old script.old script.new station.old station.new)
        (P.faults schema.old) (P.faults schema.new) }
    // Which of the outside failed.
    ensures causes { HasCauses result
        (counts_of P.faults C.faults W.speak_faults W.disk_faults schema.old script.old station.old)
        (counts_of P.faults C.faults W.speak_faults W.disk_faults schema.new script.new station.new) }
    // Where what the words ask for may be done and nothing outside fails, it is done, or memory is wanting.
    ensures complete { IsComplete result words.now
        (call_of P.left C.left W.now W.content schema.old script.old script.new station.old station.new)
        (counts_of P.faults C.faults W.speak_faults W.disk_faults schema.old script.old station.old)
        (counts_of P.faults C.faults W.speak_faults W.disk_faults schema.new script.new station.new) }
    // The script is read only under `run`, so not under `check`; and only where the schema's text is served.
    ensures unasked { (IsRun words.now → ⊥) → script.new ≡ script.old }
    ensures unread { IsTrue (ends_before_script result) → script.new ≡ script.old }
    // Under `check`, and where the words are none of the forms, the store's file is not touched.
    ensures untouched { (IsCheck words.now ⊎ IsNoPlan words.now) → (W.content station.new ≡ W.content station.old) × ((W.now station.new).disk ≡ (W.now station.old).disk) }
    // Where words, text or file are refused, a crash at any moment leaves the file as it was.
    ensures spared { IsTrue (ends_before_script result) → IsSpared (W.content station.old) (W.history station.old) (W.history station.new) (W.now station.old) }
    // Under `init` and `demo` a file that has octets is as it was after a crash at any moment, whatever the answer.
    ensures filled { (IsInit words.now ⊎ IsDemo words.now) → IsFilled (W.content station.old) → IsSpared (W.content station.old) (W.history station.old) (W.history station.new) (W.now station.old) }
    // The schema's text is not read under `demo`, nor where the words are none of the forms.
    ensures unasked_schema { (IsDemo words.now ⊎ IsNoPlan words.now) → schema.new ≡ schema.old }
    // Each reply is spoken in one call: at each moment whole replies were spoken. Where speech failed, the last one may
    // be cut.
    ensures moments { Through (W.history station.old) (W.history station.new)
        (λ m. SaidWhole words.now (P.left schema.old) (W.content station.old) (C.left script.old) (W.now station.old).spoken m.spoken ⊎ IsCut result (W.now station.new).spoken m.spoken) }
    // At each moment since the store's file was made sure of, a crash leaves what was committed by the lines that were answered by then,
    // and what the line that is served commits wholly or not at all: this too from the first byte of its reply on.
    ensures kept { IsRun words.now → IsAlwaysKept (P.left schema.old) (W.content station.old) (C.left script.old) (W.now station.old).spoken (W.history station.old) (W.history station.new) (W.now station.old) }
    // After any first lines of the script, and so after those that were taken: each serializable transaction that was
    // committed answered and changed the catalog as if it ran alone, in the order of commits; read-committed ones were
    // answered from their own changes, and else from what was committed last; no key has two holders; each reference
    // that was followed was given before, and no serial was given twice. What is stored then, and an image stands for, are
    // good objects under a next serial that is above each that a commit gave which changed something, and not above the machine's.
    ensures right { IsAlwaysRight (P.left schema.old) (C.left script.old) }
{
    scripts_are_right();
    an_image_is_one_thing();
    let Ok(asked) = plan(words) else {
        return match speak(station, USAGE) {
            Ok(()) => Status::Usage,
            Err(_) => Status::SpeakFault,
        };
    };
    match asked {
        Plan::Check { .. } => tell_checked(alloc, schema, station),
        Plan::Run { .. } => run_script(alloc, schema, script, station),
        Plan::Init { .. } => init_store(alloc, schema, station),
        Plan::Demo { rounds, .. } => demonstrate(alloc, rounds, station),
    }
}
