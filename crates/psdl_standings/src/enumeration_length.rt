// How many octets the text of an enumeration has in the schema's shape.
ghost use Rattle.std.specs.Prelude.{◌≡◌};
ghost use Rattle.psdl_tree.specs.Views.{identifiers_view};
ghost use Rattle.psdl_standings.specs.inner.TextMeasured.{names_length, enumeration_length};

use crate::text_length::TextLength;
use psdl_tree::{Identifier, Identifiers};

// With names behind what stands in front.
fn with_names(names: &[Identifier], front: TextLength) -> TextLength
    ensures { result.0 ≡ names_length front.0 names.now }
{
    let mut whole = front;
    for identifier in names {
        whole = whole.with_name(identifier.name.as_slice());
    }
    whole
}

/// The length of an enumeration's text.
pub(crate) fn enumeration_length(enumerators: &Identifiers) -> TextLength
    ensures { result.0 ≡ enumeration_length (identifiers_view enumerators.now) }
{
    let first = TextLength::of(b"enum(").with_name(enumerators.first.name.as_slice());
    with_names(&enumerators.others, first)
}
