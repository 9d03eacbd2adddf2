//! Programs for tests: their cases come from standard input, a line each, and the answers go to standard output.
#![tactic(auto)]

mod running;
mod stations;
mod store;
mod words;

pub use running::{Cases, run_cases};
pub use stations::{append_moment, append_moments, station_of};
pub use store::{
    MOST_OCTETS, append_sum, begin_store, part_of, put_at, put_octets, put_of, set_octets, sum_of,
};
pub use words::{append_octets, number_of, octets_of, short_number_of, split_word};
