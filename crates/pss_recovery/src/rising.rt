// The serials of a body's changes.
ghost use Rattle.std.specs.Prelude.{◌↔◌, IsTrue};
ghost use Rattle.pss_recovery.specs.Replaying.{Rise};

use pss_base::Put;

/// Whether the serials rise, from 1 on and below the next one.
pub fn rises(puts: &[Put], next: u64) -> bool
    ensures { IsTrue result ↔ Rise 0 next puts.now }
{
    let mut last = 0;
    for put in puts {
        if put.serial <= last || put.serial >= next {
            return false;
        }
        last = put.serial;
    }
    true
}
