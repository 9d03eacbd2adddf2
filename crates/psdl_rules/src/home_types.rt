// The types of a home and of one that it names.
ghost use Rattle.std.specs.Prelude.{◌≡◌};
ghost use Rattle.psdl_lineage.specs.Descent.{type_of_home};
ghost use Rattle.psdl_rules.specs.Texts.{judged};
ghost use Rattle.psdl_rules.specs.inner.Pairs.{types_with};

use crate::text::Text;
use psdl_directory::{DeclarationNo, Use};

/// The type of a home, and that of the home that it names.
#[derive(Clone, Copy)]
pub(crate) struct HomeTypes {
    pub own: DeclarationNo,
    pub named: DeclarationNo,
}

/// Both types, where each of the two homes has one.
pub(crate) fn types_with(text: &Text, number: DeclarationNo, used: &Use) -> Option<HomeTypes>
    ensures { result ≡ types_with (judged text.now) (type_of_home (judged text.now) number) used.now }
{
    let own = text.lineage().type_of_home(number)?;
    let home = used.defined?;
    let named = text.lineage().type_of_home(home)?;
    Some(HomeTypes { own, named })
}
