// Why a text is refused.
ghost use Rattle.std.specs.Prelude.{◌≡◌};
ghost use Rattle.psdl_directory.specs.Fault.{is_after};

use pss_base::Place;
use thiserror::Error;

/// What is wrong with a text. The kinds are declared in the order of their numbers: of two faults at one place, the first
/// is that whose kind is declared first.
#[derive(Clone, Copy, Debug, PartialEq, Eq, PartialOrd, Ord, Drop)]
pub enum CheckKind {
    /// An identifier equals, but for case, an earlier one of its scope.
    Redefined,
    /// A name stands for nothing, also where case is ignored.
    Unknown,
    /// A name stands for something only where case is ignored.
    WrongCase,
    /// A name stands for another kind than its place needs, or a string or an expression stands where it may not.
    WrongKind,
    /// A base, or what is implemented or managed, is only declared so far; or a forward declaration is never defined.
    Incomplete,
    /// A struct names itself, or a type or home names itself as base, behind `of` or behind `implements`.
    Cycle,
    /// Two members of a type, or two keys or factories of a home with different lists, have names that are equal but for case.
    MemberClash,
    /// A key names no member of the home's type, or names one twice.
    KeyMember,
    /// A key's member is a struct, sequence, array or reference.
    KeyType,
    /// A factory names no member of the home's type, or names one twice.
    FactoryMember,
    /// A home implements an abstract home to whose type its own does not conform.
    NotImplemented,
    /// A home's type does not go with that of its base, or is abstract where it has to be concrete, or the other way round.
    HomeType,
    /// A home's type is that of another home of its family before it.
    FamilyType,
    /// A value leaves its range.
    ConstRange,
    /// A divisor is 0.
    ConstZero,
    /// No storage home implements what a catalog provides.
    Provides,
    /// There are too many members or homes, or a type nests too deep, or a record or the shape is too long.
    Limit,
    /// There was no memory. It may come in place of any other answer.
    NoMemory,
}

/// What is wrong, and where.
#[derive(Clone, Copy, Debug, PartialEq, Eq, Drop, Error)]
#[error("{kind:?} at {line}:{column}", line = .place.line, column = .place.column)]
pub struct CheckFault {
    pub place: Place,
    pub kind: CheckKind,
}

impl CheckFault {
    /// Whether the other comes first, by place and then by kind.
    #[tactic(auto, unfolding(crate::specs::Fault::is_before))]
    pub(crate) fn is_after(self, other: CheckFault) -> bool
        ensures { result ≡ is_after self other }
    {
        let place = self.place.offset;
        let other_place = other.place.offset;
        other_place < place || (other_place == place && other.kind < self.kind)
    }
}
