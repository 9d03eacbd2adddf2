// Speaks in one call.
ghost use Rattle.std.specs.Prelude.{◌≡◌, OnOk, OnErr};
ghost use Rattle.std.specs.Io.KnownBytes.{append_known};
ghost use Rattle.pss_base.specs.Causes.{HasCause};
ghost use Rattle.pss_disk.specs.Moments.{Through};
ghost use Rattle.line_service.specs.Spoken.{SaidOf, HasSpoken};

use pss_base::Failed;
use pss_disk::Station;

/// Speaks bytes in one call: so at a moment that comes all was spoken that is spoken at the end. The disk stays.
#[inline(always)]
pub fn speak<W: Station>(station: &mut W, bytes: &[u8]) -> Result<(), Failed>
    ensures said { OnOk result ((W.now station.new).spoken ≡ append_known (W.now station.old).spoken bytes.now) }
    ensures part { OnErr result (SaidOf bytes.now (W.now station.old).spoken (W.now station.new).spoken) }
    ensures disk { (W.now station.new).disk ≡ (W.now station.old).disk }
    ensures content { W.content station.new ≡ W.content station.old }
    ensures moments { Through (W.history station.old) (W.history station.new) (HasSpoken (W.now station.new).spoken (W.now station.old).disk) }
    ensures cause { HasCause (W.speak_faults station.old) (W.speak_faults station.new) result }
    ensures other { W.disk_faults station.new ≡ W.disk_faults station.old }
{
    station.speak(bytes)
}
