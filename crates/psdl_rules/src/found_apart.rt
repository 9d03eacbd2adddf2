// A fault that was found apart.
ghost use Rattle.std.specs.Prelude.{◌≡◌};
ghost use Rattle.psdl_directory.specs.Fault.{lesser};

use psdl_directory::{CheckFault, Least};

/// Notes it, where there is one.
#[tactic(auto, using(psdl_directory::proofs::Noting::lesser_none))]
pub(crate) fn note_found(found: Option<CheckFault>, least: &mut Least)
    ensures { least.new ≡ lesser least.old found }
{
    match found {
        Some(fault) => least.note(fault),
        None => {}
    }
}
