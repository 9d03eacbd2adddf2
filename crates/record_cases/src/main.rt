//! Types, values and records, from standard input, a command a line. `text PSDL` sets the schema, and the layout to that of the text's first
//! storage home; it has no answer, nor has an empty line. Each other line is answered by a line:
//!
//! | Command | Answer |
//! |---|---|
//! | `encode V V ..` | the octets of the record with these values, two hexadecimal digits for each; or `BADVALUE` and the column of the first value that is none of its member's type, or that is one too many, or behind the line's end where one is missing |
//! | `length V V ..` | how many octets these are, or `BADVALUE` and the column likewise |
//! | `decode OCTETS` | the values of the record with these octets, a space between them, or why they are no record, and where |
//! | `steps OCTETS` | what `decode` answers, `after`, and how many steps were taken |
//! | `flips AT OCTETS` | what `steps` answers where the octet at a place, counted from 0, is 0, 1, 127, 255, and itself but for its lowest bit; `/` stands between the five |
//! | `default` | the values of a record in which nothing was set yet |
//! | `value AT TEXT` | the place where the value ends that stands at a place of the text, counted from 0, and what is printed for it, or `BADVALUE`; its type is that of the first member |
//! | `octets AT OCTETS` | the same, of a text that is given by its octets |
//! | `is VALUE` | for each member, whether a value is of its type. The value is written by its kind: `int N`, `char N`, `bool TRUE`, `enum N`, `nil`, `ref HOME SERIAL`, `text OCTETS`, `list N N ..`, `struct N N ..` |
//! | `descends HOME OF` | whether a storage home is another or derives from it, both by their numbers |
#![tactic(auto)]

mod answers;
mod reading;
mod records;
mod types;
mod values;
mod words;

use answers::Records;
use case_lines::run_cases;
use std::process::ExitCode;

fn main(rt: HostRuntime) -> ExitCode {
    let mut cases = Records::new();
    run_cases(&rt, &mut cases)
}
