// Kinds of declarations.
ghost use Rattle.std.specs.Prelude.{◌≡◌};
ghost use Rattle.psdl_directory.specs.Parts.{kind, same_kind};
ghost use Rattle.psdl_directory.specs.inner.Keys.{whole};
ghost use Rattle.psdl_directory.specs.inner.Nodes.{what_view};

use crate::declaration::What;

/// A number for each kind of declaration, as tables keep it.
#[derive(Clone, Copy, PartialEq, Eq, PartialOrd, Ord)]
pub(crate) struct KindNo(pub u8);

/// The kind of a declaration.
pub(crate) fn kind_of(what: What<'_>) -> KindNo
    ensures { result.0 ≡ kind (what_view what.entry) }
{
    KindNo(match what {
        What::Module(_) => 0,
        What::Constant(_) => 1,
        What::Alias(_, _, _) => 2,
        What::Struct(_) => 3,
        What::Enumeration(_) => 4,
        What::Enumerator => 5,
        What::AbstractType(_) => 6,
        What::ConcreteType(_) => 7,
        What::AbstractHome(_) => 8,
        What::ConcreteHome(_) => 9,
        What::Catalog(_) => 10,
    })
}

/// Whether two declarations are of one kind.
pub fn same_kind(first: What<'_>, second: What<'_>) -> bool
    ensures { result ≡ same_kind (what_view first.entry) (what_view second.entry) }
{
    kind_of(first).0 == kind_of(second).0
}

impl What<'_> {
    ghost use Rattle.std.specs.Prelude.{◌≡◌};
    ghost use Rattle.psdl_directory.specs.Parts as parts;
    ghost use Rattle.psdl_directory.specs.inner.Nodes.{what_view};

    /// A typedef, a struct or an enum.
    pub fn is_type(self) -> bool
        ensures { result ≡ parts.is_type (what_view self.entry) }
    {
        match self {
            What::Alias(_, _, _) => true,
            What::Struct(_) => true,
            What::Enumeration(_) => true,
            _ => false,
        }
    }

    /// An abstract storage type.
    pub fn is_abstract_type(self) -> bool
        ensures { result ≡ parts.is_abstract_type (what_view self.entry) }
    {
        matches!(self, What::AbstractType(_))
    }

    /// A storage type that is not abstract.
    pub fn is_concrete_type(self) -> bool
        ensures { result ≡ parts.is_concrete_type (what_view self.entry) }
    {
        matches!(self, What::ConcreteType(_))
    }

    /// A storage type, abstract or concrete.
    pub fn is_storage_type(self) -> bool
        ensures { result ≡ parts.is_storage_type (what_view self.entry) }
    {
        match self {
            What::AbstractType(_) => true,
            What::ConcreteType(_) => true,
            _ => false,
        }
    }

    /// An abstract storage home.
    pub fn is_abstract_home(self) -> bool
        ensures { result ≡ parts.is_abstract_home (what_view self.entry) }
    {
        matches!(self, What::AbstractHome(_))
    }

    /// A concrete storage home.
    pub fn is_concrete_home(self) -> bool
        ensures { result ≡ parts.is_concrete_home (what_view self.entry) }
    {
        matches!(self, What::ConcreteHome(_))
    }

    /// A storage home, abstract or concrete.
    pub fn is_home(self) -> bool
        ensures { result ≡ parts.is_home (what_view self.entry) }
    {
        match self {
            What::AbstractHome(_) => true,
            What::ConcreteHome(_) => true,
            _ => false,
        }
    }

    /// A type or home without its body.
    pub fn is_forward(self) -> bool
        ensures { result ≡ parts.is_forward (what_view self.entry) }
    {
        match self {
            What::AbstractType(body) => body.is_none(),
            What::ConcreteType(body) => body.is_none(),
            What::AbstractHome(body) => body.is_none(),
            _ => false,
        }
    }
}

/// The kind of a definition. A forward declaration has none here, so that it is never found.
pub(crate) fn whole_kind(what: What<'_>) -> Option<KindNo>
    ensures { result ≡ whole (what_view what.entry) }
{
    if what.is_forward() {
        None
    } else {
        Some(kind_of(what))
    }
}
