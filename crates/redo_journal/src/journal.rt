// Bodies are appended behind gates.
ghost use Rattle.std.specs.Prelude.{ℕ, List, ◌≡◌, ◌↔◌, ◌+◌, ◌<◌, ◌++◌, [], ◌∷◌, IsTrue, OnErr, OnOk, length, IfSome};
ghost use Rattle.std.specs.Option.{option_map};
ghost use Rattle.pss_base.specs.Causes.{HasCause};
ghost use Rattle.pss_disk.specs.Images.{IsOutside, IsQuiet, Keeps};
ghost use Rattle.pss_disk.specs.Moments.{IsSettled, Through};
ghost use Rattle.pss_disk.specs.Octets.{StaysOutside, range_of, write};
ghost use Rattle.redo_journal.specs.Journal.{Fits, HoldsEither, IsReady, NoShorter, advanced, behind, framed};
ghost use Rattle.redo_journal.specs.inner.Laying.{laid};

use crate::header::{fits_behind, write_header};
use crate::layout::{BODY, CLOSED, OPEN};
use pss_base::{DiskFault, Failed};
use pss_disk::{Station, set_gate};
use std::marker::Model;

/// Where the journal of a store's epoch ends.
#[derive(Drop)]
pub struct Journal {
    end: u32,
    epoch: u64,
}

impl Model for Journal {
    ghost use Rattle.redo_journal.specs.Journal.{Position};

    ghost Value = { Position };

    ghost view = { λ j. record { end = j.end; epoch = j.epoch } };
}

// Writes header, body and a closed gate behind the gate at an end, and makes sure of them.
fn lay<W: Station>(w: &mut W, end: u64, epoch: u64, body: &[u8]) -> Result<(), Failed>
    requires fits { Fits end (length body.now) }
    requires settled { IsSettled (W.content w.old) (W.now w.old) }
    ensures content { OnOk result (W.content w.new ≡ option_map (write (end + 1) (laid epoch body.now)) (W.content w.old)) }
    ensures settled { OnOk result (IsSettled (W.content w.new) (W.now w.new)) }
    ensures failed { OnErr result (StaysOutside (range_of (end + 1) (laid epoch body.now)) (W.content w.old) (W.content w.new)) }
    ensures images { Through (W.history w.old) (W.history w.new) (Keeps (IsOutside (range_of (end + 1) (laid epoch body.now))) (W.content w.old)) }
    ensures long { Through (W.history w.old) (W.history w.new) (NoShorter (W.content w.old)) }
    ensures quiet { Through (W.history w.old) (W.history w.new) (IsQuiet (W.now w.old)) }
    ensures said { IsQuiet (W.now w.old) (W.now w.new) }
    ensures cause { HasCause (W.disk_faults w.old) (W.disk_faults w.new) result }
    ensures other { W.speak_faults w.new ≡ W.speak_faults w.old }
{
    let start = end + BODY as u64;
    w.write_at(end + 1, &write_header(epoch, body.len() as u32))?;
    w.write_at(start, body)?;
    w.write_at(start + body.len() as u64, &[CLOSED])?;
    w.sync()?;
    Ok(())
}

// Lays a record behind the gate at an end, and opens that gate.
fn append_at<W: Station>(w: &mut W, end: u64, epoch: u64, body: &[u8]) -> Result<(), Failed>
    requires fits { Fits end (length body.now) }
    requires settled { IsSettled (W.content w.old) (W.now w.old) }
    ensures content { OnOk result (W.content w.new ≡ option_map (write end (framed epoch body.now)) (W.content w.old)) }
    ensures added { OnOk result ((before : List (List ℕ)) → IfSome (W.content w.old) (IsReady (record { end = end; epoch = epoch }) before) → IfSome (W.content w.new) (IsReady (record { end = behind end (length body.now); epoch = epoch }) (before ++ body.now ∷ []))) }
    ensures settled { OnOk result (IsSettled (W.content w.new) (W.now w.new)) }
    ensures failed { OnErr result (StaysOutside (range_of end (framed epoch body.now)) (W.content w.old) (W.content w.new)) }
    ensures bodies { (before : List (List ℕ)) → IfSome (W.content w.old) (IsReady (record { end = end; epoch = epoch }) before) → Through (W.history w.old) (W.history w.new) (HoldsEither (record { end = end; epoch = epoch }) before body.now) }
    ensures others { Through (W.history w.old) (W.history w.new) (Keeps (IsOutside (range_of end (framed epoch body.now))) (W.content w.old)) }
    ensures long { Through (W.history w.old) (W.history w.new) (NoShorter (W.content w.old)) }
    ensures quiet { Through (W.history w.old) (W.history w.new) (IsQuiet (W.now w.old)) }
    ensures said { IsQuiet (W.now w.old) (W.now w.new) }
    ensures cause { HasCause (W.disk_faults w.old) (W.disk_faults w.new) result }
    ensures other { W.speak_faults w.new ≡ W.speak_faults w.old }
{
    lay(w, end, epoch, body)?;
    set_gate(w, end, OPEN)?;
    Ok(())
}

impl Journal {
    /// The journal of an epoch that ends at this place of the file, as `replay` gives it. It takes no memory.
    pub fn start(end: u32, epoch: u64) -> Journal
        ensures { result ≡ record { end = end; epoch = epoch } }
    {
        Journal { end, epoch }
    }

    /// Whether a record with a body of so many octets fits: it and the gate behind it lie in the journal.
    pub fn fits(&self, len: u32) -> bool
        ensures { IsTrue result ↔ Fits self.now.end len }
    {
        fits_behind(self.end, len)
    }

    /// Appends a body: writes header, body and a closed gate behind the gate at the end; syncs; opens that gate; syncs.
    /// It takes no memory. At each moment a crash leaves the bodies so far, or these and the new one, and all octets
    /// in front of the gate and behind the closed one; no image is shorter than the content was. `DiskFault`: the journal is not used any more.
    pub fn append<W: Station>(&mut self, w: &mut W, body: &[u8]) -> Result<(), DiskFault>
        requires fits { Fits self.old.end (length body.now) }
        requires settled { IsSettled (W.content w.old) (W.now w.old) }
        ensures content { OnOk result (W.content w.new ≡ option_map (write self.old.end (framed self.old.epoch body.now)) (W.content w.old)) }
        ensures added { OnOk result ((before : List (List ℕ)) → IfSome (W.content w.old) (IsReady self.old before) → IfSome (W.content w.new) (IsReady self.new (before ++ body.now ∷ []))) }
        ensures settled { OnOk result (IsSettled (W.content w.new) (W.now w.new)) }
        ensures end { OnOk result (self.new ≡ advanced (length body.now) self.old) }
        ensures failed { OnErr result (StaysOutside (range_of self.old.end (framed self.old.epoch body.now)) (W.content w.old) (W.content w.new)) }
        ensures same { OnErr result (self.new ≡ self.old) }
        ensures bodies { (before : List (List ℕ)) → IfSome (W.content w.old) (IsReady self.old before) → Through (W.history w.old) (W.history w.new) (HoldsEither self.old before body.now) }
        ensures others { Through (W.history w.old) (W.history w.new) (Keeps (IsOutside (range_of self.old.end (framed self.old.epoch body.now))) (W.content w.old)) }
        ensures long { Through (W.history w.old) (W.history w.new) (NoShorter (W.content w.old)) }
        ensures quiet { Through (W.history w.old) (W.history w.new) (IsQuiet (W.now w.old)) }
        ensures said { IsQuiet (W.now w.old) (W.now w.new) }
        ensures cause { HasCause (W.disk_faults w.old) (W.disk_faults w.new) result }
        ensures other { W.speak_faults w.new ≡ W.speak_faults w.old }
    {
        let Ok(()) = append_at(w, self.end as u64, self.epoch, body) else {
            return Err(DiskFault);
        };
        self.end += BODY as u32 + body.len() as u32;
        Ok(())
    }
}
