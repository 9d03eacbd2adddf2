// A script is served, line by line.
ghost use Rattle.std.specs.Prelude.{◌+◌, ◌≤◌, ◌⊎◌, ℕ, List};
ghost use Rattle.pss_base.specs.Causes.{HasCauseIf};
ghost use Rattle.pss_disk.specs.Moments.{Through};
ghost use Rattle.std.specs.declared.option.Option.{Option};
ghost use Rattle.line_service.specs.Runs.{Says, Comes, SaidByLines, IsCut, is_read_fault, is_speak_fault, is_disk_fault};

use crate::machine::{LineMachine, Turn};
use crate::speaking::speak;
use pss_base::{LineReader, LineStep, Source};
use pss_disk::Station;
use std::alloc::Global;

/// How serving a script ends.
#[derive(Clone, Copy, Drop)]
pub enum Ending {
    /// The script was read to its end, and each of its lines was served.
    End,
    /// More follows behind the greatest number of lines or of bytes; this was told.
    TooLong,
    /// The script's source failed.
    ReadFault,
    /// The disk failed.
    DiskFault,
    /// Speech failed.
    SpeakFault,
    /// There was no memory.
    NoMemory,
}

const TOO_LONG: &[u8] = b"script too long\n";

/// Serves the lines of a script by a machine: at most so many lines, of at most so many bytes in all, line feeds counted.
///
/// The clauses speak of each state that the machine is in at first. They say what was spoken, what is left of the script and
/// which state the machine is in at the end; which moments came; and which of the outside failed.
pub fn serve<M: LineMachine, C: Source, W: Station>(
    alloc: Global,
    machine: &mut M,
    script: &mut C,
    station: &mut W,
    max_lines: u32,
    max_bytes: u64,
) -> Ending
    requires few { M.served machine.old + max_lines ≤ 4294967295 }
    requires stands { (s : M.State) × M.is_in machine.old s (W.content station.old) (W.now station.old).disk }
    ensures says { (s : M.State) → M.is_in machine.old s (W.content station.old) (W.now station.old).disk
        → Says M.turn s (record { lines = max_lines; bytes = max_bytes }) result
        (record { script = C.left script.old; left = C.left script.new; before = (W.now station.old).spoken; after = (W.now station.new).spoken })
        (λ t. M.is_in machine.new t (W.content station.new) (W.now station.new).disk) }
    ensures moments { (s : M.State) → M.is_in machine.old s (W.content station.old) (W.now station.old).disk
        → Through (W.history station.old) (W.history station.new) (λ m.
        Comes M.turn M.passes (λ t disk. (machine : M) × (content : Option (List ℕ)) × M.is_in machine t content disk) s
        (record { lines = max_lines; bytes = max_bytes }) (C.left script.old) (W.now station.old).spoken m
        × (SaidByLines M.turn s (record { lines = max_lines; bytes = max_bytes }) (C.left script.old) (W.now station.old).spoken m.spoken
        ⊎ IsCut result (W.now station.new).spoken m.spoken)) }
    ensures read { HasCauseIf (C.faults script.old) (C.faults script.new) (is_read_fault result) }
    ensures speech { HasCauseIf (W.speak_faults station.old) (W.speak_faults station.new) (is_speak_fault result) }
    ensures disk { HasCauseIf (W.disk_faults station.old) (W.disk_faults station.new) (is_disk_fault result) }
{
    let mut reader = LineReader::new(alloc, max_lines, max_bytes);
    'lines: loop {
        let line = reader.next(script);
        match line {
            LineStep::End => return Ending::End,
            LineStep::Limit => match speak(station, TOO_LONG) {
                Ok(()) => return Ending::TooLong,
                Err(_) => return Ending::SpeakFault,
            },
            LineStep::ReadFault => return Ending::ReadFault,
            LineStep::NoMemory => return Ending::NoMemory,
            LineStep::Line(_) | LineStep::TooLong => match machine.serve_line(&line, station) {
                Turn::Went => reader.give_back(line),
                Turn::DiskFault => return Ending::DiskFault,
                Turn::SpeakFault => return Ending::SpeakFault,
                Turn::NoMemory => return Ending::NoMemory,
            },
        }
    }
}
