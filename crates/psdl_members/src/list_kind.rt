// What has a name and a list in a home.
use crate::listed::{Listed, of_factory, of_key};
use psdl_tree::{Factory, Key};

/// Keys, or factories.
#[derive(Clone, Copy)]
pub enum ListKind {
    Key,
    Factory,
}

impl ListKind {
    ghost use Rattle.std.specs.Prelude.{◌≡◌, option_map};
    ghost use Rattle.std.specs.Option.{option_to_list};
    ghost use Rattle.psdl_tree.specs.Views.{key_view, factory_view};
    ghost use Rattle.psdl_members.specs.inner.Listing.{whole_view, of_key, of_factory};

    /// A key, where keys are asked for.
    pub(crate) fn key<'d>(self, key: &'d Key) -> Option<Listed<'d>>
        ensures { option_to_list (option_map whole_view result) ≡ of_key self (key_view key.now) }
    {
        match self {
            ListKind::Key => Some(of_key(key)),
            ListKind::Factory => None,
        }
    }

    /// A factory, where factories are asked for.
    pub(crate) fn factory<'d>(self, factory: &'d Factory) -> Option<Listed<'d>>
        ensures { option_to_list (option_map whole_view result) ≡ of_factory self (factory_view factory.now) }
    {
        match self {
            ListKind::Key => None,
            ListKind::Factory => Some(of_factory(factory)),
        }
    }
}
