//! What all layers stand on: bytes, identifiers of objects and their texts, stored records and the limits of what
//! is stored, sources of bytes, and the lines of a source.
#![tactic(auto)]

mod ahead;
mod blanks;
mod bytes;
mod damage;
mod failed;
mod hexadecimal;
mod keep;
mod laws;
mod limits;
mod lines;
mod memory;
mod owner;
mod part;
mod pid;
mod pid_text;
mod place;
mod put;
mod radix;
mod session;
mod source;
mod steps;
mod stop;
mod whole;

pub use blanks::{is_blank, skip_blanks};
pub use bytes::Bytes;
pub use damage::DamageKind;
pub use failed::{Failed, NoMemory};
pub use hexadecimal::{hex_digit, hex_number, hex_value, write_hex};
pub use laws::lines_come_in_order;
pub use limits::{GREATEST_TOTAL, LONGEST_RECORD, LONGEST_SHAPE, MOST_CHANGES, OBJECT_WEIGHT};
pub use lines::{LineReader, LineStep};
pub use memory::MemSource;
pub use owner::OwnerNo;
pub use part::LONGEST_LINE;
pub use pid::{Pid, Pids};
pub use pid_text::{append_pid, append_short_pid, read_pid, read_short_pid};
pub use place::Place;
pub use put::{Put, Puts};
pub use radix::{digit_value, is_digit};
pub use session::SessionNo;
pub use source::{Source, StdSource};
pub use steps::Steps;
pub use stop::{DiskFault, StoreStop};
pub use whole::{ReadAll, read_all};
