// Why a text is no value.
ghost use Rattle.std.specs.Prelude.{◌≡◌};
ghost use Rattle.value_text.specs.declared.fault.ValueFault.TheVariants.{NoMemory as OutOfMemory};

use pss_base::NoMemory;

/// Why no value was read.
#[derive(Clone, Copy, Debug, PartialEq, Eq, Drop)]
pub enum ValueFault {
    /// No text from the place up to a blank or the end is a spelling of a value of the type.
    BadValue,
    /// There was no memory. It may come in place of any other answer.
    NoMemory,
}

impl From<NoMemory> for ValueFault {
    ghost from_gives = { λ _ fault. fault ≡ OutOfMemory };

    fn from(_: NoMemory) -> ValueFault {
        ValueFault::NoMemory
    }
}
