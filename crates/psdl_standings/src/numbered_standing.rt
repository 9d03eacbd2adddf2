// What declarations stand for, their types by number.
ghost use Rattle.std.specs.Prelude.{◌≡◌};
ghost use Rattle.std.proofs.Common.{get_or};
ghost use Rattle.psdl_standings.specs.declared.numbered_standing.NumberedStanding.TheVariants.{Nothing};
ghost use Rattle.psdl_standings.specs.inner.Tellings.{type_told, value_told, is_number_told};

/// The number of a type of the text.
#[derive(Clone, Copy)]
pub(crate) struct TypeNo {
    pub index: usize,
}

/// What a declaration stands for, its type by number.
#[derive(Clone, Copy)]
pub(crate) enum NumberedStanding {
    Nothing,
    OfType(TypeNo),
    /// A constant of an integer type, with its value where it has one.
    OfNumber(TypeNo, Option<i128>),
}

impl NumberedStanding {
    /// The number of the type that it is.
    pub(crate) fn type_number(self) -> Option<usize>
        ensures { result ≡ type_told self }
    {
        match self {
            NumberedStanding::OfType(number) => Some(number.index),
            _ => None,
        }
    }

    /// The value of the constant that it is.
    pub(crate) fn value(self) -> Option<i128>
        ensures { result ≡ value_told self }
    {
        match self {
            NumberedStanding::OfNumber(_, value) => value,
            _ => None,
        }
    }

    pub(crate) fn is_number(self) -> bool
        ensures { result ≡ is_number_told self }
    {
        match self {
            NumberedStanding::OfNumber(_, _) => true,
            _ => false,
        }
    }
}

/// What the declaration with that number stands for.
pub(crate) fn numbered_standing_at(told: &[NumberedStanding], number: usize) -> NumberedStanding
    ensures { result ≡ get_or told.now number Nothing }
{
    if number < told.len() {
        told[number]
    } else {
        NumberedStanding::Nothing
    }
}
