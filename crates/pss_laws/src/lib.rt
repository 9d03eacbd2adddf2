//! Laws alone, over the definitions of the catalog machine: what one operation owes, what every command keeps,
//! that every run is serial, and that good catalogs stay good.
#![tactic(auto)]

mod laws;

pub use laws::{
    changes_are_locked, commands_ask_of_homes, commands_keep_sound, good_stays_good,
    operations_owe, runs_are_serial, worked_run_is_serial,
};
