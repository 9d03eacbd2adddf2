// A new store is written into an empty file.
ghost use Rattle.std.specs.Prelude.{◌≡◌, ◌+◌, ◌*◌, ◌<◌, ◌≤◌, length, Err, EachIndex, IfOk, IfSome, IsSome, OnOk, slice_index};
ghost use Rattle.pss_base.specs.Causes.{HasCause, HasCauseIf};
ghost use Rattle.pss_disk.specs.Moments.{IsSettled};
ghost use Rattle.pss_disk.specs.Octets.{disk_end};
ghost use Rattle.pss_disk.specs.Reading.{OnlyReads};
ghost use Rattle.redo_journal.specs.Journal.{journal_end};
ghost use Rattle.page_format.specs.Written.{root_octets};
ghost use Rattle.pss_recovery.specs.declared.fault.InitFault.TheVariants as fault;
ghost use Rattle.pss_recovery.specs.Faults.{is_init_disk_fault};
ghost use Rattle.pss_recovery.specs.Silence.{IsSilent};
ghost use Rattle.pss_recovery.specs.inner.Blanks.{IsBlank, IsMade, first_root};

use crate::fault::InitFault;
use crate::layout::{FIRST_EPOCH, FIRST_SERIAL, PIECE, PIECES};
use page_format::layout::SHAPE;
use page_format::{Buffer, Root, Slots, put_root};
use pss_base::{Bytes, Failed, NoMemory};
use pss_disk::{Station, set_gate};
use redo_journal::OPEN;
use std::alloc::Global;

// So many zero octets.
fn zeros(alloc: Global, count: usize) -> Result<Vec<u8>, NoMemory>
    ensures len { IfOk result (λ zeros. length zeros.items ≡ count) }
    ensures zero { IfOk result (λ zeros. EachIndex zeros.items (λ i. slice_index zeros.items i ≡ 0)) }
{
    Ok(vec![in alloc; 0; count]?)
}

// The first root of a store: it has no page, and no serial was given.
fn first_root(alloc: Global, shape: &Bytes) -> Result<Root, NoMemory>
    ensures { IfOk result (λ root. root ≡ first_root shape.now) }
{
    Ok(Root {
        area: 0,
        epoch: FIRST_EPOCH,
        next: FIRST_SERIAL,
        shape: shape.copy()?,
        slots: Slots::new(alloc),
    })
}

// What stands behind the gate of a root, which is one octet, up to its slots.
fn octets_of(alloc: Global, root: &Root) -> Result<Buffer, NoMemory>
    requires shape { length root.now.shape ≤ 65536 }
    requires slots { length root.now.slots ≤ 8058 }
    ensures { IfOk result (λ buffer. buffer.octets ≡ root_octets root.now) }
{
    let mut buffer = Buffer::of_size(alloc, SHAPE - 1 + root.shape.as_slice().len())?;
    put_root(&mut buffer, root);
    Ok(buffer)
}

// What stands behind the gate of the first root.
fn first_octets(alloc: Global, shape: &Bytes) -> Result<Buffer, NoMemory>
    requires { length shape.now ≤ 65536 }
    ensures { IfOk result (λ buffer. buffer.octets ≡ root_octets (first_root shape.now)) }
{
    match first_root(alloc, shape) {
        Ok(root) => octets_of(alloc, &root),
        Err(NoMemory) => Err(NoMemory),
    }
}

// Writes so many pieces of zero octets into an empty file.
fn clear<W: Station>(w: &mut W, piece: &[u8], count: u32) -> Result<(), Failed>
    requires zero { EachIndex piece.now (λ i. slice_index piece.now i ≡ 0) }
    requires within { count * length piece.now ≤ disk_end }
    requires empty { IfSome (W.content w.old) (IsBlank 0) }
    ensures cleared { OnOk result (IfSome (W.content w.new) (IsBlank (count * length piece.now))) }
    ensures told { OnOk result (IsSome (W.content w.old) → IsSome (W.content w.new)) }
    ensures silent { IsSilent W.now W.history W.speak_faults w.old w.new }
    ensures cause { HasCause (W.disk_faults w.old) (W.disk_faults w.new) result }
{
    let mut at: u64 = 0;
    'pieces: for k in 0..count {
        w.write_at(at, piece)?;
        at += piece.len() as u64;
    }
    Ok(())
}

// Makes a store of zero octets, with a root behind its gate, in an empty file.
fn make<W: Station>(w: &mut W, piece: &[u8], count: u32, root: &[u8]) -> Result<(), Failed>
    requires zero { EachIndex piece.now (λ i. slice_index piece.now i ≡ 0) }
    requires within { count * length piece.now ≤ disk_end }
    requires short { 1 + length root.now ≤ count * length piece.now }
    requires empty { IfSome (W.content w.old) (IsBlank 0) }
    ensures made { OnOk result (IfSome (W.content w.new) (IsMade (count * length piece.now) root.now)) }
    ensures told { OnOk result (IsSome (W.content w.old) → IsSome (W.content w.new)) }
    ensures settled { OnOk result (IsSettled (W.content w.new) (W.now w.new)) }
    ensures silent { IsSilent W.now W.history W.speak_faults w.old w.new }
    ensures cause { HasCause (W.disk_faults w.old) (W.disk_faults w.new) result }
{
    clear(w, piece, count)?;
    w.write_at(1, root)?;
    w.sync()?;
    set_gate(w, 0, OPEN)?;
    Ok(())
}

/// Makes a store without objects in an empty file. `NoMemory`: nothing was written.
pub fn write_new<W: Station>(alloc: Global, w: &mut W, shape: &Bytes) -> Result<(), InitFault>
    requires short { length shape.now ≤ 65536 }
    requires empty { IfSome (W.content w.old) (λ c. length c ≡ 0) }
    ensures made { OnOk result (IfSome (W.content w.new) (IsMade journal_end (root_octets (first_root shape.now)))) }
    ensures told { OnOk result (IsSome (W.content w.old) → IsSome (W.content w.new)) }
    ensures settled { OnOk result (IsSettled (W.content w.new) (W.now w.new)) }
    ensures never { result ≡ Err fault.NotEmpty → ⊥ }
    ensures memory { result ≡ Err fault.NoMemory → OnlyReads W.now W.content W.history W.speak_faults w.old w.new }
    ensures silent { IsSilent W.now W.history W.speak_faults w.old w.new }
    ensures cause { HasCauseIf (W.disk_faults w.old) (W.disk_faults w.new) (is_init_disk_fault result) }
{
    let Ok(root) = first_octets(alloc, shape) else {
        return Err(InitFault::NoMemory);
    };
    let Ok(piece) = zeros(alloc, PIECE) else {
        return Err(InitFault::NoMemory);
    };
    match make(w, &piece, PIECES, root.as_slice()) {
        Ok(()) => Ok(()),
        Err(_) => Err(InitFault::DiskFault),
    }
}
