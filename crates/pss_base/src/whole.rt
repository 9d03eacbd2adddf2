// All bytes of a source.
ghost use Rattle.std.specs.Prelude.{◌≡◌, ◌≤◌, IfOk, OnOk, IfErr, IfSome, length};
ghost use Rattle.std.specs.Io.KnownBytes.{IsAtEnd};
ghost use Rattle.pss_base.specs.All.{IsRefused, is_faulty};
ghost use Rattle.pss_base.specs.Causes.{HasCauseIf};

use crate::ahead::Ahead;
use crate::keep::extend_within;
use crate::{Bytes, Source};
use std::alloc::Global;

/// Why not all bytes of a source were read.
#[derive(Drop)]
pub enum ReadAll {
    /// More bytes come than the limit allows. These are the first, as many as the limit.
    OverLimit(Bytes),
    /// The source failed.
    ReadFault,
    /// There was no memory.
    NoMemory,
}

/// All bytes of a source, where they are no more than the limit. It is read in large pieces, so after a refusal nothing
/// is said of what the source has left.
pub fn read_all<C: Source>(alloc: Global, src: &mut C, limit: u32) -> Result<Bytes, ReadAll>
    ensures ok { IfOk result (λ bytes. (length bytes ≤ limit) × IfSome (C.left src.old) (λ all. bytes ≡ all)) }
    ensures end { OnOk result (IsAtEnd (C.left src.new)) }
    ensures err { IfErr result (λ e. IsRefused e limit (C.left src.old)) }
    ensures cause { HasCauseIf (C.faults src.old) (C.faults src.new) (is_faulty result) }
{
    let mut ahead = Ahead::new();
    let mut bytes = Bytes::new(alloc);
    let mut room = limit as usize;
    'pieces: loop {
        let Ok(()) = ahead.refill(src) else {
            return Err(ReadAll::ReadFault);
        };
        let count = ahead.as_slice().len();
        if count == 0 {
            return Ok(bytes);
        }
        let Ok(()) = extend_within(&mut bytes, room, ahead.as_slice()) else {
            return Err(ReadAll::NoMemory);
        };
        if count > room {
            return Err(ReadAll::OverLimit(bytes));
        }
        room -= count;
        ahead.skip(count);
    }
}
