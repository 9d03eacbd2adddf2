// Octets of a store are read.
ghost use Rattle.std.specs.Prelude.{◌≡◌, ◌+◌, ◌≤◌, length, IfOk, IfSome};
ghost use Rattle.pss_base.specs.Causes.{HasCauseIf};
ghost use Rattle.pss_disk.specs.Octets.{disk_end};
ghost use Rattle.pss_disk.specs.Reading.{OnlyReads};
ghost use Rattle.page_format.specs.Faults.{is_disk_stop};
ghost use Rattle.page_format.specs.inner.Copies.{IsCopy};

use pss_base::{NoMemory, StoreStop};
use pss_disk::Station;
use std::alloc::Global;

/// So many octets, to be read into.
pub fn room(alloc: Global, count: usize) -> Result<Vec<u8>, NoMemory>
    ensures { IfOk result (λ octets. length octets.items ≡ count) }
{
    Ok(vec![in alloc; 0; count]?)
}

/// Reads so many octets from a place on.
pub fn read_octets<W: Station>(
    alloc: Global,
    w: &mut W,
    at: u64,
    count: usize,
) -> Result<Vec<u8>, StoreStop>
    requires { at + count ≤ disk_end }
    ensures len { IfOk result (λ octets. length octets.items ≡ count) }
    ensures copied { IfOk result (λ octets. IfSome (W.content w.old) (IsCopy at count octets.items)) }
    ensures reads { OnlyReads W.now W.content W.history W.speak_faults w.old w.new }
    ensures cause { HasCauseIf (W.disk_faults w.old) (W.disk_faults w.new) (is_disk_stop result) }
{
    let Ok(mut octets) = room(alloc, count) else {
        return Err(StoreStop::NoMemory);
    };
    match w.read_at(at, &mut octets) {
        Ok(()) => Ok(octets),
        Err(_) => Err(StoreStop::DiskFault),
    }
}
