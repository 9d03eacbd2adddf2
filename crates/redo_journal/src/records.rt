// The records of a journal, one after another.
ghost use Rattle.std.specs.Prelude.{ℕ, ◌≡◌, ◌≢◌, ◌+◌, ◌-◌, ◌<◌, ◌≤◌, ◌++◌, [], ◌∷◌, length, Err, IfOk, IfSome, IsNone, OnErr, OnOk, Some};
ghost use Rattle.std.specs.Option.{unwrap_or};
ghost use Rattle.pss_base.specs.Causes.{HasCause, HasCauseIf};
ghost use Rattle.pss_disk.specs.Octets.{octets_in};
ghost use Rattle.pss_disk.specs.Parts.{Stands};
ghost use Rattle.pss_disk.specs.Reading.{OnlyReads};
ghost use Rattle.redo_journal.specs.Faults.{is_disk_fault, is_disk_stop};
ghost use Rattle.redo_journal.specs.Journal.{Chain, Ends, Fits, Holds, IsDamaged, IsWrong, behind, journal_end, journal_start};
ghost use Rattle.redo_journal.specs.declared.fault.ReplayFault.TheVariants.{Damaged, NoMemory as OfMemory};
ghost use Rattle.redo_journal.specs.inner.Window.{IsHeader, IsPiece};

use crate::bodies::Bodies;
use crate::fault::ReplayFault;
use crate::header::{Header, read_header};
use crate::layout::{BODY, JOURNAL_START};
use crate::window::Window;
use pss_base::{Bytes, DiskFault, StoreStop};
use pss_disk::Station;
use std::alloc::Global;

// What stands at a gate.
fn header_at<W: Station>(
    w: &mut W,
    window: &mut Window,
    gate: u32,
    epoch: u64,
) -> Result<Header, DiskFault>
    requires place { gate < journal_end }
    requires piece { IsPiece (W.content w.old) window.old }
    ensures header { IfOk result (λ header. IfSome (W.content w.old) (IsHeader epoch gate header)) }
    ensures piece { OnOk result (IsPiece (W.content w.new) window.new) }
    ensures reads { OnlyReads W.now W.content W.history W.speak_faults w.old w.new }
    ensures cause { HasCause (W.disk_faults w.old) (W.disk_faults w.new) result }
{
    let at = gate as u64;
    window.reach(w, at, BODY)?;
    Ok(read_header(&window.ahead(at)[..BODY], epoch))
}

// Adds octets of the content to a body: some, and at most so many.
fn take_piece<W: Station>(
    w: &mut W,
    window: &mut Window,
    at: u64,
    most: usize,
    body: &mut Bytes,
) -> Result<usize, StoreStop>
    requires place { at < journal_end }
    requires some { 0 < most }
    requires piece { IsPiece (W.content w.old) window.old }
    ensures some { IfOk result (λ count. 0 < count) }
    ensures most { IfOk result (λ count. count ≤ most) }
    ensures len { IfOk result (λ count. length body.new ≡ length body.old + count) }
    ensures taken { IfOk result (λ count. IfSome (W.content w.old) (λ c. body.new ≡ body.old ++ octets_in (record { at = at; count = count }) c)) }
    ensures piece { OnOk result (IsPiece (W.content w.new) window.new) }
    ensures reads { OnlyReads W.now W.content W.history W.speak_faults w.old w.new }
    ensures cause { HasCauseIf (W.disk_faults w.old) (W.disk_faults w.new) (is_disk_stop result) }
{
    let Ok(()) = window.reach(w, at, 1) else {
        return Err(StoreStop::DiskFault);
    };
    let ahead = window.ahead(at);
    let count = ahead.len().min(most);
    match body.extend(&ahead[..count]) {
        Ok(()) => Ok(count),
        Err(_) => Err(StoreStop::NoMemory),
    }
}

// Fills an empty body.
fn fill_body<W: Station>(
    w: &mut W,
    window: &mut Window,
    at: u64,
    len: usize,
    body: &mut Bytes,
) -> Result<(), StoreStop>
    requires place { at + len < journal_end }
    requires empty { body.old ≡ [] }
    requires piece { IsPiece (W.content w.old) window.old }
    ensures len { OnOk result (length body.new ≡ len) }
    ensures stands { OnOk result (IfSome (W.content w.old) (λ c. Stands c at body.new)) }
    ensures piece { OnOk result (IsPiece (W.content w.new) window.new) }
    ensures reads { OnlyReads W.now W.content W.history W.speak_faults w.old w.new }
    ensures cause { HasCauseIf (W.disk_faults w.old) (W.disk_faults w.new) (is_disk_stop result) }
{
    let mut done = 0;
    while done < len {
        done += take_piece(w, window, at + done as u64, len - done, body)?;
    }
    Ok(())
}

// The body of a record.
fn body_at<W: Station>(
    alloc: Global,
    w: &mut W,
    window: &mut Window,
    at: u64,
    len: u32,
) -> Result<Bytes, StoreStop>
    requires place { at + len < journal_end }
    requires piece { IsPiece (W.content w.old) window.old }
    ensures len { IfOk result (λ body. length body ≡ len) }
    ensures stands { IfOk result (λ body. IfSome (W.content w.old) (λ c. Stands c at body)) }
    ensures piece { OnOk result (IsPiece (W.content w.new) window.new) }
    ensures reads { OnlyReads W.now W.content W.history W.speak_faults w.old w.new }
    ensures cause { HasCauseIf (W.disk_faults w.old) (W.disk_faults w.new) (is_disk_stop result) }
{
    let Ok(mut body) = Bytes::with_room(alloc, len as usize) else {
        return Err(StoreStop::NoMemory);
    };
    match fill_body(w, window, at, len as usize, &mut body) {
        Ok(()) => Ok(body),
        Err(stop) => Err(stop),
    }
}

// Adds a body behind a gate, and answers the gate behind its record.
fn add_body(bodies: &mut Bodies, body: Bytes, gate: u32) -> Result<Option<u32>, ReplayFault>
    requires fits { Fits gate (length body) }
    ensures next { IfOk result (λ next. next ≡ Some (behind gate (length body))) }
    ensures added { OnOk result (bodies.new ≡ bodies.old ++ body ∷ []) }
    ensures memory { OnErr result (result ≡ Err OfMemory) }
{
    let next = gate + BODY as u32 + body.as_slice().len() as u32;
    match bodies.push(body) {
        Ok(()) => Ok(Some(next)),
        Err(_) => Err(ReplayFault::NoMemory),
    }
}

// Reads and adds the body of the record at a gate, and answers the gate behind it.
fn take_body<W: Station>(
    alloc: Global,
    w: &mut W,
    window: &mut Window,
    gate: u32,
    len: u32,
    bodies: &mut Bodies,
) -> Result<Option<u32>, ReplayFault>
    requires fits { Fits gate len }
    requires piece { IsPiece (W.content w.old) window.old }
    ensures next { IfOk result (λ next. next ≡ Some (behind gate len)) }
    ensures added { OnOk result (IfSome (W.content w.old) (λ c. bodies.new ≡ bodies.old ++ octets_in (record { at = gate + 13; count = len }) c ∷ [])) }
    ensures sound { (at : ℕ) → result ≢ Err (Damaged at) }
    ensures piece { OnOk result (IsPiece (W.content w.new) window.new) }
    ensures reads { OnlyReads W.now W.content W.history W.speak_faults w.old w.new }
    ensures cause { HasCauseIf (W.disk_faults w.old) (W.disk_faults w.new) (is_disk_fault result) }
{
    match body_at(alloc, w, window, gate as u64 + BODY as u64, len) {
        Ok(body) => add_body(bodies, body, gate),
        Err(StoreStop::DiskFault) => Err(ReplayFault::DiskFault),
        Err(StoreStop::NoMemory) => Err(ReplayFault::NoMemory),
    }
}

// Adds the body of the record at a gate to those in front of it, and answers the gate behind it; or none where the
// journal ends there.
fn record_at<W: Station>(
    alloc: Global,
    w: &mut W,
    window: &mut Window,
    gate: u32,
    epoch: u64,
    bodies: &mut Bodies,
) -> Result<Option<u32>, ReplayFault>
    requires place { gate < journal_end }
    requires piece { IsPiece (W.content w.old) window.old }
    requires chain { IfSome (W.content w.old) (λ c. Chain epoch c journal_start bodies.old gate) }
    ensures onward { IfOk result (λ next. IfSome next (λ next. (gate < next) × (next < journal_end))) }
    ensures chain { IfOk result (λ next. IfSome (W.content w.old) (λ c. Chain epoch c journal_start bodies.new (unwrap_or next gate))) }
    ensures ends { IfOk result (λ next. IsNone next → IfSome (W.content w.old) (λ c. Ends epoch c gate)) }
    ensures damaged { (at : ℕ) → result ≡ Err (Damaged at) → (at ≡ gate) × IfSome (W.content w.old) (λ c. IsWrong epoch c gate) }
    ensures piece { OnOk result (IsPiece (W.content w.new) window.new) }
    ensures reads { OnlyReads W.now W.content W.history W.speak_faults w.old w.new }
    ensures cause { HasCauseIf (W.disk_faults w.old) (W.disk_faults w.new) (is_disk_fault result) }
{
    let Ok(header) = header_at(w, window, gate, epoch) else {
        return Err(ReplayFault::DiskFault);
    };
    if header.ends(gate) {
        return Ok(None);
    }
    if header.is_wrong(gate) {
        return Err(ReplayFault::Damaged(gate as u64));
    }
    take_body(alloc, w, window, gate, header.len, bodies)
}

// Adds the bodies of all records, and answers the gate that ends the journal.
pub fn read_records<W: Station>(
    alloc: Global,
    w: &mut W,
    window: &mut Window,
    epoch: u64,
    bodies: &mut Bodies,
) -> Result<u32, ReplayFault>
    requires empty { bodies.old ≡ [] }
    requires piece { IsPiece (W.content w.old) window.old }
    ensures within { IfOk result (λ end. (journal_start ≤ end) × (end < journal_end)) }
    ensures held { IfOk result (λ end. IfSome (W.content w.old) (Holds (record { end = end; epoch = epoch }) bodies.new)) }
    ensures damaged { (at : ℕ) → result ≡ Err (Damaged at) → IfSome (W.content w.old) (IsDamaged epoch at) }
    ensures reads { OnlyReads W.now W.content W.history W.speak_faults w.old w.new }
    ensures cause { HasCauseIf (W.disk_faults w.old) (W.disk_faults w.new) (is_disk_fault result) }
{
    let mut gate = JOURNAL_START;
    'records: loop {
        match record_at(alloc, w, window, gate, epoch, bodies) {
            Ok(Some(next)) => gate = next,
            Ok(None) => return Ok(gate),
            Err(fault) => return Err(fault),
        }
    }
}
