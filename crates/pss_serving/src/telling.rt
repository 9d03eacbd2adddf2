// Why there is no sound text is spoken in one piece.
ghost use Rattle.std.specs.Prelude.{◌≡◌, Err, false};
ghost use Rattle.pss_base.specs.Causes.{HasCauseIf};
ghost use Rattle.pss_disk.specs.Moments.{Through};
ghost use Rattle.line_service.specs.Spoken.{HasSpoken};
ghost use Rattle.pss_serving.specs.Counts.{has_read_failed, has_speech_failed};
ghost use Rattle.pss_serving.specs.Found.{has_failed};
ghost use Rattle.pss_serving.specs.Unread.{IsUnknown, TellsUnread};
ghost use Rattle.pss_serving.specs.declared.reading.Unread.TheVariants as unread;

use crate::reading::Unread;
use crate::refusal::print_schema_fault;
use crate::schema_fault::SchemaFault;
use crate::status::Status;
use line_service::speak;
use pss_disk::Station;
use std::alloc::Global;

// Tells the fault of a text.
fn refuse<W: Station>(alloc: Global, fault: SchemaFault, station: &mut W) -> Status
    ensures told { TellsUnread result (unread.Refused fault) (W.now station.old).spoken (W.now station.new).spoken }
    ensures read { has_read_failed result ≡ false }
    ensures moments { Through (W.history station.old) (W.history station.new) (HasSpoken (W.now station.new).spoken (W.now station.old).disk) }
    ensures disk { (W.now station.new).disk ≡ (W.now station.old).disk }
    ensures content { W.content station.new ≡ W.content station.old }
    ensures speech { HasCauseIf (W.speak_faults station.old) (W.speak_faults station.new) (has_speech_failed result) }
    ensures other { W.disk_faults station.new ≡ W.disk_faults station.old }
{
    match print_schema_fault(alloc, &fault) {
        Ok(line) => match speak(station, line.as_slice()) {
            Ok(()) => Status::SchemaRefused,
            Err(_) => Status::SpeakFault,
        },
        Err(_) => Status::NoMemory,
    }
}

/// How a call ends where there is no sound text. The fault of a text is spoken; of its source and of memory there is nothing to
/// tell.
pub fn status_of_unread<W: Station>(alloc: Global, why: Unread, station: &mut W) -> Status
    ensures told { TellsUnread result why (W.now station.old).spoken (W.now station.new).spoken }
    ensures read { has_read_failed result ≡ has_failed (Err why) }
    ensures untold { IsUnknown why → station.new ≡ station.old }
    ensures moments { Through (W.history station.old) (W.history station.new) (HasSpoken (W.now station.new).spoken (W.now station.old).disk) }
    ensures disk { (W.now station.new).disk ≡ (W.now station.old).disk }
    ensures content { W.content station.new ≡ W.content station.old }
    ensures speech { HasCauseIf (W.speak_faults station.old) (W.speak_faults station.new) (has_speech_failed result) }
    ensures other { W.disk_faults station.new ≡ W.disk_faults station.old }
{
    match why {
        Unread::Refused(fault) => refuse(alloc, fault, station),
        Unread::ReadFault => Status::ReadFault,
        Unread::NoMemory => Status::NoMemory,
    }
}
