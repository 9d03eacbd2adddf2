// A machine that serves one line at a time.
ghost use Rattle.std.specs.Prelude.{◌≡◌, ◌<◌, ◌+◌, ℕ, List};
ghost use Rattle.std.specs.declared.option.Option.{Option};
ghost use Rattle.pss_base.specs.declared.lines.LineStep.{LineStep};
ghost use Rattle.pss_base.specs.Causes.{HasCauseIf};
ghost use Rattle.pss_disk.specs.Moments.{Moment, Disk, Through};
ghost use Rattle.line_service.specs.Turns.{IsLine, Speaks, SaidWhole, is_speak_fault, is_disk_fault};

use pss_base::LineStep;
use pss_disk::Station;

/// What became of a line.
#[derive(Drop)]
pub enum Turn {
    /// It was served, and its reply was spoken where it has one.
    Went,
    /// The disk failed: nothing was spoken.
    DiskFault,
    /// Speech failed: some first bytes of the reply were spoken.
    SpeakFault,
    /// There was no memory: nothing was spoken.
    NoMemory,
}

/// A machine that serves lines, each by one turn from its state to the next one.
pub trait LineMachine {
    /// The states that it may be in.
    ghost State: { Type 0 };

    /// It is in this state, over a disk with this content that may leave this after a crash.
    ghost is_in: { Self → State → Option (List ℕ) → Option Disk → Type 0 };

    /// What a line makes of a state, and what is spoken for it: a reply with its line feed, or nothing.
    ghost turn: { State → LineStep → State × List ℕ };

    /// A moment that may come while a line is served in a state, where so much had been spoken before.
    ghost passes: { State → LineStep → Option (List ℕ) → Moment → Type 0 };

    /// How many lines it has served.
    ghost served: { Self → ℕ };

    /// Serves a line of at most 65,536 bytes, or one that was too long, and speaks its reply in one call. After any answer
    /// but `Went` it is not called again. It serves at most 4,294,967,295 lines.
    fn serve_line<W: Station>(&mut self, line: &LineStep, station: &mut W) -> Turn
        requires line { IsLine line.now }
        requires few { served self.old < 4294967295 }
        requires stands { (s : State) × is_in self.old s (W.content station.old) (W.now station.old).disk }
        ensures served { result ≡ Turn.Went → served self.new ≡ served self.old + 1 }
        ensures went { result ≡ Turn.Went → (s : State) → is_in self.old s (W.content station.old) (W.now station.old).disk
            → is_in self.new (turn s line.now).0 (W.content station.new) (W.now station.new).disk }
        ensures speaks { (s : State) → is_in self.old s (W.content station.old) (W.now station.old).disk
            → Speaks result (turn s line.now).1 (W.now station.old).spoken (W.now station.new).spoken }
        ensures moments { (s : State) → is_in self.old s (W.content station.old) (W.now station.old).disk
            → Through (W.history station.old) (W.history station.new)
            (λ m. passes s line.now (W.now station.old).spoken m × SaidWhole result (turn s line.now).1 (W.now station.old).spoken (W.now station.new).spoken m.spoken) }
        ensures speech { HasCauseIf (W.speak_faults station.old) (W.speak_faults station.new) (is_speak_fault result) }
        ensures disk { HasCauseIf (W.disk_faults station.old) (W.disk_faults station.new) (is_disk_fault result) };
}
