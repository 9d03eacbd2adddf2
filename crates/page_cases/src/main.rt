//! Roots and pages of stores, from standard input, a command a line; numbers are decimal, octets are hexadecimal digits. `store LENGTH` begins a
//! store of so many zero octets and `octets AT HEX` puts octets into it. `root` is answered by the area of the current root, its epoch, its next
//! serial, its shape and its slots, or by what is wrong. `pages` is answered by the objects in the pages of the current root in order, each as
//! serial, home and record, behind the number of calls of the disk that it took, or by what is wrong. A number behind either word fails that call
//! of the disk. `change SERIAL HOME HEX` tells a change of an object for the next checkpoint, a removal where there are no digits, and
//! `fill SERIAL HOME COUNT` one to a record of so many octets; `checkpoint NEXT` makes one, and is answered by how it ended and how many calls of the disk it took. `crashes NEXT` makes one of copies of the store, none
//! of whose calls fails or each in turn, and is answered by how it ended and what is found after each moment with picks 0 to 3: `-` the store of
//! before, `+` the next one, `?` anything else. `sum AT COUNT` is answered by a sum of the store's octets.
#![tactic(auto)]

mod answers;
mod checkpoints;
mod crashes;
mod roots;

use answers::Stores;
use case_lines::run_cases;
use std::process::ExitCode;

fn main(rt: HostRuntime) -> ExitCode {
    let mut cases = Stores::new(rt.alloc());
    run_cases(&rt, &mut cases)
}
