// C13: homes with the type of another home of their family.
ghost use Rattle.std.specs.Prelude.{◌≡◌, ◌<◌, ◌+◌, length, OnOk};
ghost use Rattle.psdl_directory.specs.Fault.{each};
ghost use Rattle.psdl_directory.specs.Lookup.{at};
ghost use Rattle.psdl_directory.specs.Noting.{noting};
ghost use Rattle.psdl_rules.specs.Faults.FamilyType as conditions;
ghost use Rattle.psdl_rules.specs.Texts.{judged};
ghost use Rattle.psdl_rules.specs.inner.Related.{membership, AreMet};

use crate::text::Text;
use psdl_directory::{CheckKind, DeclarationNo, Least};
use pss_base::NoMemory;
use std::alloc::Global;
use std::collections::BTreeSet;

/// The family of a concrete home, and its type.
#[derive(Clone, Copy, PartialEq, Eq, PartialOrd, Ord)]
pub(crate) struct Membership {
    pub family: DeclarationNo,
    pub home_type: DeclarationNo,
}

fn membership_of(text: &Text, number: DeclarationNo) -> Option<Membership>
    requires { number < length (judged text.now) }
    ensures { result ≡ membership (judged text.now) number }
{
    let is_home = text.what(number).is_concrete_home();
    if !is_home {
        return None;
    }
    match text.lineage().type_of_home(number) {
        Some(home_type) => Some(Membership {
            family: text.lineage().family(number),
            home_type,
        }),
        None => None,
    }
}

fn family_type_at(
    text: &Text,
    members: &mut BTreeSet<Membership>,
    number: DeclarationNo,
    least: &mut Least,
) -> Result<(), NoMemory>
    requires number { number < length (judged text.now) }
    requires met { AreMet (judged text.now) number members.old }
    ensures met { OnOk result (AreMet (judged text.now) (number + 1) members.new) }
    ensures noted { OnOk result (least.new ≡ noting least.old (conditions.family_type (judged text.now) number (at (judged text.now) number))) }
{
    match membership_of(text, number) {
        Some(member) => {
            let is_new = members.insert(member)?;
            least.note_if(!is_new, CheckKind::FamilyType, text.place(number));
            Ok(())
        }
        None => Ok(()),
    }
}

/// C13: a home's type is that of another home of its family before it.
pub(crate) fn family_type(alloc: Global, text: &Text, least: &mut Least) -> Result<(), NoMemory>
    ensures { OnOk result (least.new ≡ noting least.old (each (conditions.family_type (judged text.now)) (judged text.now))) }
{
    let mut members = BTreeSet::new(alloc);
    for index in 0..text.len() {
        family_type_at(text, &mut members, DeclarationNo::new(index), least)?;
    }
    Ok(())
}
