// C7: members, keys and factories that clash.
ghost use Rattle.std.specs.Prelude.{◌≡◌, OnOk};
ghost use Rattle.psdl_directory.specs.Fault.{each};
ghost use Rattle.psdl_directory.specs.Lookup.{at};
ghost use Rattle.psdl_directory.specs.Noting.{noting};
ghost use Rattle.psdl_members.specs.Texts.{inherited_in};
ghost use Rattle.psdl_rules.specs.Faults.MemberClash as conditions;
ghost use Rattle.psdl_rules.specs.Texts.{judged};

use crate::settled::is_settled;
use crate::text::Text;
use psdl_directory::{CheckKind, DeclarationNo, Least};
use psdl_members::Inherited;
use pss_base::NoMemory;
use std::alloc::Global;

#[tactic(auto, using(crate::proofs::Parts::by_order))]
fn member_clash_at(
    alloc: Global,
    text: &Text,
    inherited: &mut Inherited,
    number: DeclarationNo,
    least: &mut Least,
) -> Result<(), NoMemory>
    requires same { inherited_in inherited.old ≡ judged text.now }
    ensures same { inherited_in inherited.new ≡ judged text.now }
    ensures noted { OnOk result (least.new ≡ noting least.old (conditions.member_clash (judged text.now) number (at (judged text.now) number))) }
{
    let place = text.place(number);
    if !least.comes_first(CheckKind::MemberClash, place) {
        return Ok(());
    }
    let is_settled = is_settled(text, number);
    if !is_settled {
        return Ok(());
    }
    let clash = inherited.has_clash(alloc, number, text.what(number))?;
    least.note_if(clash, CheckKind::MemberClash, place);
    Ok(())
}

/// C7: two members of a type have names that are equal but for case, or two keys or two factories of a home, with
/// different lists.
pub(crate) fn member_clash(alloc: Global, text: &Text, least: &mut Least) -> Result<(), NoMemory>
    ensures { OnOk result (least.new ≡ noting least.old (each (conditions.member_clash (judged text.now)) (judged text.now))) }
{
    let mut inherited = Inherited::new(alloc, text.lineage())?;
    for index in 0..text.len() {
        let number = DeclarationNo::new(index);
        member_clash_at(alloc, text, &mut inherited, number, least)?;
    }
    Ok(())
}
