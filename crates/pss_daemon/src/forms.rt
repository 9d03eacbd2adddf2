// What the program may be asked for.

/// What to do, and where among the words its names stand. The first word is at 0.
#[derive(Clone, Copy, Drop)]
pub enum Plan {
    /// `check SCHEMA`
    Check { schema: usize },
    /// `init SCHEMA STORE`
    Init { schema: usize, store: usize },
    /// `run SCHEMA STORE`
    Run { schema: usize, store: usize },
    /// `demo N STORE`, where N is the decimal text of the number of rounds, from 1 to 1000.
    Demo { rounds: u32, store: usize },
}

/// The words are of no form.
#[derive(Clone, Copy, Drop)]
pub struct Usage;
