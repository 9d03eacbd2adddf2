// From all lines to all answers.
use pss_base::{Bytes, NoMemory, StdSource, read_all};
use std::alloc::Global;
use std::io::Write;
use std::process::ExitCode;

/// The lines have at most so many bytes, with their ends.
const MOST_INPUT: u32 = 16777216;

/// What a program keeps from one line to the next, and how it answers.
pub trait Cases {
    /// Puts the answer to a line behind `out`, with its line end where it has one. No line is empty.
    fn answer(&mut self, alloc: Global, out: &mut Bytes, line: &[u8]) -> Result<(), NoMemory>;
}

fn answer_all<C: Cases>(alloc: Global, cases: &mut C, input: &[u8]) -> Result<Bytes, NoMemory> {
    let mut out = Bytes::new(alloc);
    for line in input.split(|byte| *byte == b'\n') {
        if !line.is_empty() {
            cases.answer(alloc, &mut out, line)?;
        }
    }
    Ok(out)
}

/// Reads standard input to its end, and writes the answers to its lines, in their order. The status is 0; 5 where it cannot be read or is too
/// long, 4 where there is not enough memory, 7 where the answers cannot be written.
pub fn run_cases<C: Cases>(rt: &HostRuntime, cases: &mut C) -> ExitCode {
    let mut source = StdSource::new(Some(rt.stdin()));
    let Ok(input) = read_all(rt.alloc(), &mut source, MOST_INPUT) else {
        return ExitCode::from(5);
    };
    let Ok(answers) = answer_all(rt.alloc(), cases, input.as_slice()) else {
        return ExitCode::from(4);
    };
    match rt.stdout().write_all(answers.as_slice()) {
        Ok(()) => ExitCode::from(0),
        Err(_) => ExitCode::from(7),
    }
}
