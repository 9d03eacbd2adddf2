//! Journals of stores and appends to them, from standard input, a command a line; numbers are decimal, octets are hexadecimal digits.
//! `store LENGTH` begins a store of so many zero octets and `octets AT HEX` puts octets into it. `replay EPOCH` is answered by the end of the
//! journal, how many calls of the disk it took, and each body, or by `Damaged` and the place; a second number fails that call of the disk.
//! `append EPOCH END HEX` appends a body to the store, and `show AT COUNT` is answered by its octets. `crashes EPOCH END HEX` appends to copies
//! of the store, none of whose calls fails or each in turn, and is answered by the answer and what a replay finds after each moment with picks
//! 0 to 3: `-` the bodies so far, `+` these and the new one, `?` anything else.
#![tactic(auto)]

mod answers;
mod crashes;
mod journals;

use answers::Journals;
use case_lines::run_cases;
use std::process::ExitCode;

fn main(rt: HostRuntime) -> ExitCode {
    let mut cases = Journals::new(rt.alloc());
    run_cases(&rt, &mut cases)
}
