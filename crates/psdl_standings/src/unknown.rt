// C2: names that mean nothing.
ghost use Rattle.std.specs.Prelude.{◌≡◌, ◌∷◌, []};
ghost use Rattle.psdl_directory.specs.declared.fault.CheckKind.TheVariants.{Unknown};
ghost use Rattle.psdl_directory.specs.Fault.{fault};
ghost use Rattle.psdl_directory.specs.Noting.{noting};

use psdl_directory::{CheckFault, CheckKind, Least};
use pss_base::Place;

/// Notes a name that means nothing, also where case is ignored.
pub(crate) fn note_unknown(names: &mut Least, place: Place)
    ensures { names.new ≡ noting names.old (fault Unknown place ∷ []) }
{
    names.note(CheckFault {
        place,
        kind: CheckKind::Unknown,
    });
}
