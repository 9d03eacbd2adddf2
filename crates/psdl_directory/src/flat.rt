// The declarations of a text in a row.
ghost use Rattle.psdl_directory.specs.inner.Placed.{ArePlaced};

mod walk;

use crate::declaration::Declaration;
use crate::scopes::Scopes;
pub(crate) use walk::flatten;

/// The scopes and declarations so far, in the order of the text.
#[derive(Drop)]
pub(crate) struct Flat<'a> {
    pub scopes: Scopes<'a>,
    pub declarations: Vec<Declaration<'a>>,
    ghost placed: { ArePlaced scopes declarations.items },
}
