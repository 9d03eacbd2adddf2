// Keys and factories.
ghost use Rattle.std.specs.Prelude.{◌≡◌};
ghost use Rattle.psdl_tree.specs.Views.{key_view, factory_view};
ghost use Rattle.psdl_members.specs.inner.Listing.{whole_view, whole_key, whole_factory};

use psdl_tree::{Factory, Identifier, Key};
use std::slice;

/// A key or a factory: its name, and the identifiers in its list, the first apart from the others.
#[derive(Clone, Copy)]
pub struct Listed<'d> {
    pub name: &'d Identifier,
    /// One, or none where the list is empty.
    pub first: &'d [Identifier],
    pub others: &'d [Identifier],
}

/// A key without a list has its own name as list.
pub(crate) fn of_key(key: &Key) -> Listed<'_>
    ensures { whole_view result ≡ whole_key (key_view key.now) }
{
    match &key.members {
        Some(members) => Listed {
            name: &key.name,
            first: slice::from_ref(&members.names.first),
            others: &members.names.others,
        },
        None => Listed {
            name: &key.name,
            first: slice::from_ref(&key.name),
            others: &[],
        },
    }
}

pub(crate) fn of_factory(factory: &Factory) -> Listed<'_>
    ensures { whole_view result ≡ whole_factory (factory_view factory.now) }
{
    match &factory.members {
        Some(members) => Listed {
            name: &factory.name,
            first: slice::from_ref(&members.first),
            others: &members.others,
        },
        None => Listed {
            name: &factory.name,
            first: &[],
            others: &[],
        },
    }
}
