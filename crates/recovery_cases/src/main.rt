//! Stores as a whole, from standard input, a command a line; numbers are decimal, octets are hexadecimal digits. `text PSDL` sets the schema; it
//! has no answer, nor has a line that alters the store or tells a step.
//!
//! | Command | What it does, and its answer |
//! |---|---|
//! | `store LENGTH` | begins a store of so many zero octets |
//! | `octets AT OCTETS` | puts octets into it |
//! | `copies COUNT AT STEP OCTETS` | puts them so many times, each so far behind the one before |
//! | `numbers COUNT AT STEP FIRST BY` | puts so many numbers of four octets likewise, each so much greater than the one before |
//! | `sum AT COUNT` | a sum of octets of the store |
//! | `init` | makes a new store: `ok`, or why not |
//! | `mount` | mounts the store: `ok`, the next serial, and the objects by serial, each as serial, home and record; or why it is refused |
//! | `change SERIAL HOME OCTETS` | a change of the next body, a removal where there are no octets |
//! | `fill SERIAL HOME COUNT` | one to a record of so many octets, whose one member is a text |
//! | `body NEXT` | a step: these changes are committed, with this next serial |
//! | `checkpoint` | a step |
//! | `run` | mounts the store and makes the steps, which are forgotten: how it ended |
//! | `crashes` | runs copies of the store likewise, none of whose calls fails, or each in turn: how each run ended, and what is found after each of its moments with picks 0 to 3: the number of the last step up to which the objects and the next serial are as in the store then, `?` where they are as after none |
//!
//! A number behind `init`, `mount` or `run` fails that call of the disk, counted from 0; the store then has what was left in it. One behind `crashes`
//! passes over the moments in front of so many calls, and over these calls.
#![tactic(auto)]

mod answers;
mod crashes;
mod octets;
mod runs;
mod schemas;
mod steps;
mod telling;

use answers::Stores;
use case_lines::run_cases;
use std::process::ExitCode;

fn main(rt: HostRuntime) -> ExitCode {
    let mut cases = Stores::new(rt.alloc());
    run_cases(&rt, &mut cases)
}
