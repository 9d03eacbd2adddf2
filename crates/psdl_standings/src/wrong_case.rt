// C3: names that mean something only where case is ignored.
ghost use Rattle.std.specs.Prelude.{◌≡◌, ◌∷◌, []};
ghost use Rattle.psdl_directory.specs.declared.fault.CheckKind.TheVariants.{WrongCase};
ghost use Rattle.psdl_directory.specs.Fault.{fault};
ghost use Rattle.psdl_directory.specs.Noting.{noting};

use psdl_directory::{CheckFault, CheckKind, Least};
use pss_base::Place;

/// Notes a name that means something only where case is ignored.
pub(crate) fn note_wrong_case(names: &mut Least, place: Place)
    ensures { names.new ≡ noting names.old (fault WrongCase place ∷ []) }
{
    names.note(CheckFault {
        place,
        kind: CheckKind::WrongCase,
    });
}
