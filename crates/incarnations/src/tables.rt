// Tables by hash: a finite map each.

pub mod bodies;
pub mod entries;
pub mod objects;
pub mod sessions;
