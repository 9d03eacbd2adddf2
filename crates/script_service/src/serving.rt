// A script is served over a store.
ghost use Rattle.std.specs.Prelude.{◌⊎◌, is_some};
ghost use Rattle.pss_base.specs.Causes.{HasCauseIf};
ghost use Rattle.pss_disk.specs.Moments.{IsSettled, Through};
ghost use Rattle.type_layout.specs.Sound.{IsSoundSchema};
ghost use Rattle.pss_catalog.specs.Catalog.{Catalog};
ghost use Rattle.pss_machine.specs.Limits.{standard};
ghost use Rattle.line_service.specs.Runs.{Comes, Says, SaidByLines, IsCut, is_disk_fault, is_read_fault, is_speak_fault};
ghost use Rattle.script_service.specs.Turns.{turn_from, start, script_limits};
ghost use Rattle.script_service.specs.Keeping.{IsFirst, IsLeft, OnlyStandsFor, Passes};

use crate::daemon::Daemon;
use connector::Connector;
use line_service::{Ending, serve};
use pss_base::Source;
use pss_disk::Station;
use pss_machine::Limits;
use pss_recovery::{Mounted, a_mounted_store_stands};
use std::alloc::Global;
use type_layout::Schema;

/// A script has at most so many lines.
const MOST_LINES: u32 = 4294967295;

/// A script has at most so many bytes.
const MOST_BYTES: u64 = 281474976710656;

/// Serves the lines of a script over what was mounted. At most 4,294,967,295 lines of at most 281,474,976,710,656 bytes in all
/// are served. The store holds what commits and flushes changed before their replies are spoken.
pub fn serve_script<C: Source, W: Station>(
    alloc: Global,
    schema: Schema,
    mounted: Mounted,
    script: &mut C,
    station: &mut W,
) -> Ending
    requires sound { IsSoundSchema schema }
    requires first { (M : Catalog) × IsFirst schema M mounted (W.content station.old) }
    requires settled { IsSettled (W.content station.old) (W.now station.old) }
    ensures says { (M : Catalog) → IsFirst schema M mounted (W.content station.old)
        → Says turn_from (start schema standard M mounted.next (is_some (W.content station.old))) script_limits result
        (record { script = C.left script.old; left = C.left script.new; before = (W.now station.old).spoken; after = (W.now station.new).spoken })
        (IsLeft (W.content station.new) (W.now station.new).disk) }
    // At each moment whole replies were spoken, but where speech failed; and each image stands for what was before the line that is
    // served then, or for what is after it.
    ensures moments { (M : Catalog) → IsFirst schema M mounted (W.content station.old)
        → Through (W.history station.old) (W.history station.new) (λ m.
        Comes turn_from Passes OnlyStandsFor (start schema standard M mounted.next (is_some (W.content station.old))) script_limits (C.left script.old) (W.now station.old).spoken m
        × (SaidByLines turn_from (start schema standard M mounted.next (is_some (W.content station.old))) script_limits (C.left script.old) (W.now station.old).spoken m.spoken
        ⊎ IsCut result (W.now station.new).spoken m.spoken)) }
    ensures read { HasCauseIf (C.faults script.old) (C.faults script.new) (is_read_fault result) }
    ensures speech { HasCauseIf (W.speak_faults station.old) (W.speak_faults station.new) (is_speak_fault result) }
    ensures disk { HasCauseIf (W.disk_faults station.old) (W.disk_faults station.new) (is_disk_fault result) }
{
    a_mounted_store_stands();
    match Connector::new(alloc, schema, mounted, Limits::standard()) {
        Ok(connector) => {
            let mut daemon = Daemon::new(alloc, connector);
            serve(alloc, &mut daemon, script, station, MOST_LINES, MOST_BYTES)
        }
        Err(_) => Ending::NoMemory,
    }
}
