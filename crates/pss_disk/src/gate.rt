// One octet is written and made sure of.
ghost use Rattle.std.specs.Prelude.{◌≡◌, ◌≢◌, ◌<◌, ◌∷◌, [], OnErr, OnOk};
ghost use Rattle.std.specs.Option.{option_map};
ghost use Rattle.pss_base.specs.Causes.{HasCause};
ghost use Rattle.pss_disk.specs.Images.{IsQuiet, Keeps};
ghost use Rattle.pss_disk.specs.Moments.{IsSettled, Through};
ghost use Rattle.pss_disk.specs.Octets.{StaysOutside, disk_end, range_of, write};

use crate::station::Station;
use pss_base::Failed;

/// Writes one octet and makes sure of it. At each moment a crash leaves all other octets of the content as they are.
pub fn set_gate<W: Station>(station: &mut W, gate: u64, octet: u8) -> Result<(), Failed>
    requires within { gate < disk_end }
    requires settled { IsSettled (W.content station.old) (W.now station.old) }
    ensures content { OnOk result (W.content station.new ≡ option_map (write gate (octet ∷ [])) (W.content station.old)) }
    ensures settled { OnOk result (IsSettled (W.content station.new) (W.now station.new)) }
    ensures failed { OnErr result (StaysOutside (range_of gate (octet ∷ [])) (W.content station.old) (W.content station.new)) }
    ensures images { Through (W.history station.old) (W.history station.new) (Keeps (λ i. i ≢ gate) (W.content station.old)) }
    ensures quiet { Through (W.history station.old) (W.history station.new) (IsQuiet (W.now station.old)) }
    ensures said { IsQuiet (W.now station.old) (W.now station.new) }
    ensures cause { HasCause (W.disk_faults station.old) (W.disk_faults station.new) result }
    ensures other { W.speak_faults station.new ≡ W.speak_faults station.old }
{
    station.write_at(gate, &[octet])?;
    station.sync()?;
    Ok(())
}
