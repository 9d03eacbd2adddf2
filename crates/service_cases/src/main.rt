//! Calls of the service over sources and a station in memory, from standard input, a command a line. `text PSDL` sets the schema's text, and
//! `line TEXT` puts a line behind the script. `init` makes a new store, and is answered by the status. `run` serves the script over a copy of
//! the store: it is answered by the status and by how many calls of the station it took, and then by the replies. `calls` does so with each call
//! of the station failing in turn: it is answered by the call's number, the status and, for the moment in front of that call and the one behind
//! it, by the number of flushes of the script after which the store is as a crash leaves it, with picks 0 to 3: objects, values and the next serial
//! are read. These are the flushes that were acknowledged by then, or one more where the next one may have begun: for another number there is a `?`.
//! `reads` serves the script with each read of the text and each of the script failing in turn, and is answered by the status of each.
#![tactic(auto)]

mod answers;
mod calling;
mod crashes;
mod failing;

use answers::Service;
use case_lines::run_cases;
use std::process::ExitCode;

fn main(rt: HostRuntime) -> ExitCode {
    let mut cases = Service::new(rt.alloc());
    run_cases(&rt, &mut cases)
}
