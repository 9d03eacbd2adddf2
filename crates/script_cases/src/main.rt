//! Lines of scripts and replies, from standard input, a case a line. Each is answered by a line, but for empty ones
//! and those whose first word is `#`.
//!
//! | Case | Answer |
//! |---|---|
//! | `line TEXT` | what the text behind the space is read as: a command, `no reply`, or `column` and the column of what is wrong |
//! | `octets OCTETS` | the same, of a text that is given by two hexadecimal digits for each of its bytes |
//! | `reply NAME PARTS` | the text of a reply that is given by its name and its parts |
//!
//! A command is told by its name and its parts, a space in front of each: its words, `yes` or `no` for each choice, then the number of its
//! entry, its serial in decimal digits, or its object, and last the rest of its line as its column, `|` and its text.
#![tactic(auto)]

mod answers;
mod commands;
mod replies;

use answers::Scripts;
use case_lines::run_cases;
use std::process::ExitCode;

fn main(rt: HostRuntime) -> ExitCode {
    run_cases(&rt, &mut Scripts)
}
