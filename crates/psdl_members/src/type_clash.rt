// Members of a type whose names are equal but for case.
ghost use Rattle.std.specs.Prelude.{◌≡◌, ◌++◌, ◌==◌, ◌+◌, ℕ, List, true, false, not, length, MatchBool};
ghost use Rattle.std.specs.List.{flat_map};
ghost use Rattle.type_layout.specs.Sound.{are_distinct};
ghost use Rattle.psdl_lineage.specs.Descent.{has};
ghost use Rattle.psdl_members.specs.inner.Flat.{piece_of};
ghost use Rattle.psdl_members.specs.inner.Noted.{IsNoted, Within};

use crate::numbers::Numbers;
use psdl_directory::DeclarationNo;
use psdl_lineage::Marks;

// Marks numbers one by one, until one comes that is marked already.
fn comes_twice(marks: &mut Marks, numbers: &[usize]) -> bool
    requires { Within (length marks.old) numbers.now }
    ensures sized { length marks.new ≡ length marks.old }
    ensures noted { (xs : List ℕ) → IsNoted marks.old xs → MatchBool result (are_distinct (λ a b. a == b) (xs ++ numbers.now) ≡ false) (IsNoted marks.new (xs ++ numbers.now)) }
{
    for number in numbers {
        if marks.has(*number) {
            return true;
        }
        marks.mark(*number);
    }
    false
}

/// Whether some declarations have a name twice in their bodies, where case is ignored.
pub(crate) fn have_clash(marks: &mut Marks, names: &Numbers, declarations: &[DeclarationNo]) -> bool
    requires below { Within (length marks.old) names.now.numbers.items }
    ensures sized { length marks.new ≡ length marks.old }
    ensures clash { result ≡ not (are_distinct (λ a b. a == b) (flat_map (λ n. piece_of names.now.starts.items n names.now.numbers.items) declarations.now)) }
{
    marks.clear();
    for declaration in declarations {
        let twice = comes_twice(marks, names.of(declaration.index()));
        if twice {
            return true;
        }
    }
    false
}
