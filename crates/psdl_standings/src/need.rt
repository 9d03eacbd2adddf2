// What the place of a name needs.

/// What the declaration must be that a name stands for.
#[derive(Clone, Copy)]
pub(crate) enum Need {
    /// A typedef, a struct or an enum.
    OfType,
    /// A typedef of an integer, octet or string.
    OfConstantType,
    /// A constant of an integer type or octet.
    OfNumber,
    OfStorageType,
    OfAbstractType,
    OfConcreteType,
    OfAbstractHome,
    OfConcreteHome,
}
