// Stations in memory, and what crashes leave of them.
ghost use Rattle.std.specs.Prelude.{◌≤◌, length, IfOk, Some};
ghost use Rattle.pss_disk.specs.Moments.{IsSettled};
ghost use Rattle.pss_disk.specs.Tape.{now_of, state_of};

use pss_base::{Bytes, NoMemory};
use pss_disk::MemStation;
use std::alloc::Global;

/// A station with the octets of a store, whose call of this number fails, where there is one. No call came yet.
pub fn station_of(alloc: Global, store: &[u8], failing: Option<u32>) -> Result<MemStation, NoMemory>
    ensures { IfOk result (λ station. IsSettled (Some (state_of station).content) (now_of station)) }
{
    match failing {
        Some(call) => MemStation::new(alloc, store, &[call]),
        None => MemStation::new(alloc, store, &[]),
    }
}

/// Puts the letters of a moment behind what is there, those of the images that a crash leaves with picks 0 to 3.
pub fn append_moment<F: Fn(&[u8]) -> Result<u8, NoMemory>>(
    out: &mut Bytes,
    station: &MemStation,
    moment: u32,
    letter_in: F,
) -> Result<(), NoMemory>
    requires moment { moment ≤ length station.now.calls }
    requires letters { F.IsAlwaysCallable letter_in }
{
    out.extend(b" ")?;
    for pick in 0..4u8 {
        let image = station.crash(moment, pick)?;
        out.push(letter_in(image.as_slice())?)?;
    }
    Ok(())
}

/// Puts the letters of all moments from that of a number on behind what is there, and a line end.
pub fn append_moments<F: Fn(&[u8]) -> Result<u8, NoMemory>>(
    out: &mut Bytes,
    station: &MemStation,
    from: u32,
    letter_in: F,
) -> Result<(), NoMemory>
    requires { F.IsAlwaysCallable letter_in }
{
    for moment in from..=station.calls() {
        append_moment(out, station, moment, &letter_in)?;
    }
    out.extend(b"\n")
}
