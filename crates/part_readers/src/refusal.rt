// Why a reader gives nothing.
ghost use Rattle.std.specs.Prelude.{◌≡◌};
ghost use Rattle.part_readers.specs.declared.refusal.Refusal.TheVariants.{Memory};

use pss_base::NoMemory;
use std::alloc::{AllocError, AllocFailed};

/// Why a reader gives nothing.
#[derive(Debug, Drop)]
pub enum Refusal<F> {
    /// There was no memory. It may come in place of any other answer.
    Memory,
    /// What is read is not of the grammar.
    Fault(F),
}

impl<F> From<NoMemory> for Refusal<F> {
    ghost from_gives = { λ _ refusal. refusal ≡ Memory };

    fn from(_: NoMemory) -> Refusal<F> {
        Refusal::Memory
    }
}

impl<F> From<AllocError> for Refusal<F> {
    ghost from_gives = { λ _ refusal. refusal ≡ Memory };

    fn from(_: AllocError) -> Refusal<F> {
        Refusal::Memory
    }
}

impl<T: Drop, F> From<AllocFailed<T>> for Refusal<F> {
    ghost from_gives = { λ _ refusal. refusal ≡ Memory };

    fn from(_: AllocFailed<T>) -> Refusal<F> {
        Refusal::Memory
    }
}
