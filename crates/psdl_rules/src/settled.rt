// Declarations of which it is known what they have.
ghost use Rattle.std.specs.Prelude.{◌≡◌, ◌&&◌, not};
ghost use Rattle.psdl_directory.specs.Lookup.{at};
ghost use Rattle.psdl_directory.specs.Parts.{is_forward};
ghost use Rattle.psdl_rules.specs.Texts.{judged};
ghost use Rattle.psdl_rules.specs.Words.{has_settled_header};
ghost use Rattle.psdl_rules.specs.inner.Headed.{are_meant};

use crate::text::Text;
use psdl_directory::{DeclarationNo, Use};

fn are_meant(uses: &[Use]) -> bool
    ensures { result ≡ are_meant uses.now }
{
    for used in uses {
        if used.meant.is_none() {
            return false;
        }
    }
    true
}

fn all_hold(first: bool, second: bool, third: bool) -> bool
    ensures { result ≡ (first && (second && third)) }
{
    first && (second && third)
}

// Whether all names behind `:`, `implements` and `of` mean something: only then it is known what the declaration has.
fn has_settled_header(text: &Text, number: DeclarationNo) -> bool
    ensures { result ≡ has_settled_header (judged text.now) number }
{
    let bases = are_meant(text.bases(number));
    let implemented = are_meant(text.implemented(number));
    let managed = are_meant(text.managed(number));
    all_hold(bases, implemented, managed)
}

/// Whether a declaration is a definition of which it is known what it has.
pub(crate) fn is_settled(text: &Text, number: DeclarationNo) -> bool
    ensures { result ≡ (not (is_forward (at (judged text.now) number).what) && has_settled_header (judged text.now) number) }
{
    let is_forward = text.what(number).is_forward();
    !is_forward && has_settled_header(text, number)
}
