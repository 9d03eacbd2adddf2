// The least of all faults of a text, and the table of kinds. The conditions, each in a file of its own, go over all declarations.
//
// C2, C3, C4, C14 and C15 are found in psdl_standings, as bodies are walked; C8, C9 and C10 in one pass, home_lists. C17 comes
// before what goes by members: so a list of members is never long where that could still matter.
ghost use Rattle.std.specs.Prelude.{◌≡◌, nat_lt, IfOk, OnOk};
ghost use Rattle.psdl_directory.specs.Fault.{is_before, least as least_of};
ghost use Rattle.psdl_directory.specs.Noting.{noting};
ghost use Rattle.psdl_rules.specs.Faults as of;
ghost use Rattle.psdl_rules.specs.Texts.{judged};
ghost use Rattle.psdl_standings.specs.Standings.{standings as standings_of};
ghost use Rattle.psdl_standings.specs.Texts.{text_of as told_of};

mod cycle;
mod family_type;
mod home_lists;
mod home_type;
mod incomplete;
mod key_type;
mod limit;
mod list_member;
mod member_clash;
mod not_implemented;
mod provides;
mod redefined;

use crate::found_apart::note_found;
use crate::text::Text;
use cycle::cycle;
use family_type::family_type;
use home_lists::listed_members;
use home_type::home_type;
use incomplete::incomplete;
use limit::limit;
use member_clash::member_clash;
use not_implemented::not_implemented;
use provides::not_provided;
use psdl_directory::{CheckFault, CheckKind, Least};
use psdl_standings::Standings;
use pss_base::NoMemory;
use redefined::redefined;
use std::alloc::Global;

/// The number and the name of a kind, as they are printed.
pub fn fault_text(kind: CheckKind) -> &'static [u8]
    ensures { result.now ≡ of.text kind }
{
    match kind {
        CheckKind::Redefined => b"C1 Redefined",
        CheckKind::Unknown => b"C2 Unknown",
        CheckKind::WrongCase => b"C3 WrongCase",
        CheckKind::WrongKind => b"C4 WrongKind",
        CheckKind::Incomplete => b"C5 Incomplete",
        CheckKind::Cycle => b"C6 Cycle",
        CheckKind::MemberClash => b"C7 MemberClash",
        CheckKind::KeyMember => b"C8 KeyMember",
        CheckKind::KeyType => b"C9 KeyType",
        CheckKind::FactoryMember => b"C10 FactoryMember",
        CheckKind::NotImplemented => b"C11 NotImplemented",
        CheckKind::HomeType => b"C12 HomeType",
        CheckKind::FamilyType => b"C13 FamilyType",
        CheckKind::ConstRange => b"C14 ConstRange",
        CheckKind::ConstZero => b"C15 ConstZero",
        CheckKind::Provides => b"C16 Provides",
        CheckKind::Limit => b"C17 Limit",
        CheckKind::NoMemory => b"NoMemory",
    }
}

/// Whether a kind has a lesser number than another. Kinds are declared in the order of their numbers: so of two faults at one
/// place, the first is that with the lesser number.
pub fn comes_before(kind: CheckKind, other: CheckKind) -> bool
    ensures declared { result ≡ is_before kind other }
    ensures numbered { result ≡ nat_lt (of.number kind) (of.number other) }
{
    kind < other
}

// C2, C3, C4, C14 and C15.
fn body_faults(standings: &Standings, least: &mut Least)
    ensures { least.new ≡ noting least.old (of.body_faults (told_of standings.now) (standings_of (told_of standings.now))) }
{
    note_found(standings.names_fault(), least);
    note_found(standings.strings_fault(), least);
    note_found(standings.values_fault(), least);
}

// C5, C6 and C17.
#[tactic(auto, using(crate::proofs::Parts::by_parts))]
fn definition_faults(
    alloc: Global,
    text: &Text,
    standings: &Standings,
    least: &mut Least,
) -> Result<(), NoMemory>
    requires told { told_of standings.now ≡ judged text.now }
    ensures { OnOk result (least.new ≡ noting least.old (of.definition_faults (judged text.now) (standings_of (judged text.now)))) }
{
    incomplete(text, least);
    cycle(text, standings, least);
    limit(alloc, text, standings, least)?;
    Ok(())
}

// C7 to C10.
#[tactic(auto, using(crate::proofs::Parts::by_parts))]
fn member_faults(
    alloc: Global,
    text: &Text,
    standings: &Standings,
    least: &mut Least,
) -> Result<(), NoMemory>
    requires told { told_of standings.now ≡ judged text.now }
    ensures { OnOk result (least.new ≡ noting least.old (of.member_faults (judged text.now) (standings_of (judged text.now)))) }
{
    member_clash(alloc, text, least)?;
    listed_members(alloc, text, standings, least)?;
    Ok(())
}

// C11, C12, C13 and C16.
#[tactic(auto, using(crate::proofs::Parts::by_parts))]
fn home_faults(alloc: Global, text: &Text, least: &mut Least) -> Result<(), NoMemory>
    ensures { OnOk result (least.new ≡ noting least.old (of.home_faults (judged text.now))) }
{
    not_implemented(alloc, text, least)?;
    home_type(alloc, text, least)?;
    family_type(alloc, text, least)?;
    not_provided(text, least);
    Ok(())
}

#[tactic(auto, using(crate::proofs::Parts::by_parts))]
fn note_all(
    alloc: Global,
    text: &Text,
    standings: &Standings,
    least: &mut Least,
) -> Result<(), NoMemory>
    requires told { told_of standings.now ≡ judged text.now }
    ensures { OnOk result (least.new ≡ noting least.old (of.faults_by (judged text.now) (standings_of (judged text.now)))) }
{
    redefined(alloc, text, least)?;
    body_faults(standings, least);
    definition_faults(alloc, text, standings, least)?;
    member_faults(alloc, text, standings, least)?;
    home_faults(alloc, text, least)?;
    Ok(())
}

/// The least fault of a text: the first in the text, and of those at one place the first of the conditions.
pub fn first_fault(
    alloc: Global,
    text: &Text,
    standings: &Standings,
) -> Result<Option<CheckFault>, NoMemory>
    requires told { told_of standings.now ≡ judged text.now }
    ensures { IfOk result (λ r. r ≡ least_of (of.faults (judged text.now))) }
{
    let mut least = Least::new();
    note_all(alloc, text, standings, &mut least)?;
    Ok(least.fault())
}
