//! Tables by hash whose entry found last is found again without its hash, and the finite maps that such tables stand
//! for.
#![tactic(auto)]

mod table;

pub use table::RecentTable;
