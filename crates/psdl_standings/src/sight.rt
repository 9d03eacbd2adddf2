// Names at a place of the text.
ghost use Rattle.std.specs.Prelude.{◌≡◌, ◌∷◌, [], IfOk, OnOk};
ghost use Rattle.psdl_tree.specs.Views.{name_view};
ghost use Rattle.psdl_directory.specs.declared.fault.CheckKind.TheVariants.{WrongKind};
ghost use Rattle.psdl_directory.specs.Fault.{fault};
ghost use Rattle.psdl_directory.specs.Noting.{noting};
ghost use Rattle.psdl_standings.specs.inner.Walks.{with_name};
ghost use Rattle.psdl_standings.specs.inner.Sights.{scene_of, unknown_by, value_meant, meant_faults, value_at, is_own, own_faults};

use crate::body_faults::BodyFaults;
use crate::numbered_standing::{NumberedStanding, numbered_standing_at};
use crate::unknown::note_unknown;
use crate::wrong_case::note_wrong_case;
use psdl_directory::{CheckKind, DeclarationNo, Directory, Least, Use, resolve};
use psdl_tree::Name;
use pss_base::NoMemory;
use std::alloc::Global;

/// A place in the scope of a declaration, at which the first so many declarations stand, with what these stand for.
#[derive(Clone, Copy)]
pub(crate) struct Sight<'b, 'a> {
    pub directory: &'b Directory<'a>,
    pub told: &'b [NumberedStanding],
    pub limit: usize,
    pub number: usize,
    pub own: Option<usize>,
}

/// Notes a name that means nothing.
pub(crate) fn note_meaningless(names: &mut Least, used: &Use)
    ensures { names.new ≡ noting names.old (fault (unknown_by used.now.wrong_case) used.now.place ∷ []) }
{
    if used.wrong_case {
        note_wrong_case(names, used.place);
    } else {
        note_unknown(names, used.place);
    }
}

fn is_own(own: Option<usize>, meant: Option<DeclarationNo>) -> bool
    ensures { result ≡ is_own own meant }
{
    match (own, meant) {
        (Some(own), Some(meant)) => meant.index() == own,
        _ => false,
    }
}

/// Notes a name that means the struct in which it stands.
pub(crate) fn note_own(selves: &mut Least, own: Option<usize>, used: &Use)
    ensures { selves.new ≡ noting selves.old (own_faults own used.now) }
{
    selves.note_if(is_own(own, used.meant), CheckKind::Cycle, used.place);
}

// The value of the constant that a resolved name stands for. Where it stands for none, this is noted.
fn value_used(told: &[NumberedStanding], names: &mut Least, used: &Use) -> Option<i128>
    ensures value { result ≡ value_meant told.now used.now.meant }
    ensures noted { names.new ≡ noting names.old (meant_faults told.now used.now) }
{
    match used.meant {
        Some(meant) => {
            let told = numbered_standing_at(told, meant.index());
            names.note_if(!told.is_number(), CheckKind::WrongKind, used.place);
            told.value()
        }
        None => {
            note_meaningless(names, used);
            None
        }
    }
}

/// The value of the constant that a name stands for. Where it stands for none, this is noted.
pub(crate) fn value_of(
    alloc: Global,
    sight: &Sight<'_, '_>,
    faults: &mut BodyFaults,
    name: &Name,
) -> Result<Option<i128>, NoMemory>
    ensures value { IfOk result (λ v. v ≡ value_at (scene_of sight.now) (name_view name.now)) }
    ensures noted { OnOk result (faults.new ≡ with_name (scene_of sight.now) faults.old (name_view name.now)) }
{
    let used = resolve(
        alloc,
        sight.directory,
        sight.limit,
        DeclarationNo::new(sight.number),
        name,
    )?;
    note_own(&mut faults.selves, sight.own, &used);
    Ok(value_used(sight.told, &mut faults.names, &used))
}
