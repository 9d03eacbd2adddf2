// The homes of a schema, made one by one.
ghost use Rattle.std.specs.Prelude.{◌≡◌, ◌≤◌, ◌++◌, ◌∷◌, ◌+◌, [], ℕ, List, Some, false, length, nat_lt, IfOk, IfNone};
ghost use Rattle.std.specs.Option.{option_and_then};
ghost use Rattle.type_layout.specs.Schemas.{nth};
ghost use Rattle.type_layout.specs.ShapeText.{base_number};
ghost use Rattle.psdl_lineage.specs.Descent as descent;
ghost use Rattle.psdl_rules.specs.Faults.Limit.{most_members, most_shape};
ghost use Rattle.psdl_standings.specs.Standings.{standings};
ghost use Rattle.psdl_standings.specs.Texts.{types_in};
ghost use Rattle.psdl_standings.specs.TextLengths.{cut};
ghost use Rattle.psdl_check.specs.Faults.{passing};
ghost use Rattle.psdl_check.specs.Schemas.{home_of, key_numbers, schema};
ghost use Rattle.psdl_check.specs.inner.FactoryTexts.{factories_text};
ghost use Rattle.psdl_check.specs.inner.Made.{IsLaid, front_lines, lines_of, IsReady, AreMade, HasNames, AreFactories};
ghost use Rattle.psdl_check.specs.inner.Laying.{laid_text};
ghost use Rattle.psdl_check.specs.inner.Masks.{AreGroups};
ghost use Rattle.psdl_check.specs.inner.NextHomes.{ComesNext, HasNumberedKeys};
ghost use Rattle.psdl_check.specs.inner.Texts.{text_in, IsOne};

use crate::heirs::Heirs;
use crate::home_factories::HomeFactories;
use crate::home_keys::HomeKeys;
use crate::key_rows::KeyRows;
use crate::keys::{Introducing, Keys};
use crate::layout_members::{member_list, member_names, with_members};
use crate::layouts::Layouts;
use crate::line_lengths::home_line_length;
use crate::members::TypedMember;
use crate::numbering::{Numbered, number_all};
use crate::referents::Referents;
use crate::scoped_names::scoped_name;
use crate::text::Text;
use psdl_directory::DeclarationNo;
use psdl_lineage::Conformity;
use psdl_standings::{TextLength, Types};
use pss_base::{Bytes, NoMemory};
use std::alloc::Global;
use type_layout::{Factories, Home, HomeList, HomeNo, KeyNos, Layout};

/// What homes are made of, and what is made.
#[derive(Drop)]
pub(crate) struct Making<'t, 'd> {
    pub layouts: Layouts<'t, 'd>,
    pub heirs: Heirs,
    pub rows: KeyRows<'d>,
    pub home_keys: HomeKeys<'t, 'd>,
    pub factories: HomeFactories<'t, 'd>,
    pub conformity: Conformity<'t, 'd>,
    pub keys: Keys,
    pub homes: HomeList,
}

/// What is made of a home in front of its keys.
#[derive(Drop)]
pub(crate) struct Laid<'d> {
    pub name: Bytes,
    pub base: Option<HomeNo>,
    pub members: Vec<TypedMember<'d>>,
    pub referents: Referents,
}

// What is made of a home in front of its keys.
fn lay_out<'d>(
    alloc: Global,
    text: &Text,
    layouts: &mut Layouts<'_, 'd>,
    heirs: &mut Heirs,
    home: DeclarationNo,
) -> Result<Laid<'d>, NoMemory>
    requires one { IsOne text.now }
    requires text { laid_text layouts.old ≡ text_in text.now }
    requires groups { AreGroups (text_in text.now) heirs.old }
    ensures same { laid_text layouts.new ≡ laid_text layouts.old }
    ensures groups { AreGroups (text_in text.now) heirs.new }
    ensures laid { IfOk result (λ l. IsLaid (text_in text.now) (types_in text.now.standings.now) home l) }
{
    let members = layouts.of_home(alloc, text, home)?;
    let referents = Referents::new(alloc, text, heirs, &members)?;
    let name = scoped_name(alloc, text.directory(), home)?;
    Ok(Laid {
        name,
        base: text.base_no(home),
        members,
        referents,
    })
}

fn base_number(base: Option<HomeNo>) -> u32
    ensures { result ≡ base_number base }
{
    match base {
        Some(home) => home.0,
        None => 0,
    }
}

// With the lines of a home but for those of its keys behind what stands in front.
fn with_laid(text: &Text, home: DeclarationNo, laid: &Laid<'_>, front: TextLength) -> TextLength
    requires { IsLaid (text_in text.now) (types_in text.now.standings.now) home laid.now }
    ensures { result.0 ≡ cut (front.0 + length (front_lines (text_in text.now) home)) }
{
    let number = text.home_no(home);
    let line = home_line_length(number.0, base_number(laid.base), laid.name.as_slice());
    with_members(
        text.standings.types(),
        &laid.referents,
        &laid.members,
        front.followed_by(line),
    )
}

// The factories of a home.
fn factories_of(
    alloc: Global,
    factories: &HomeFactories,
    members: &[TypedMember<'_>],
    home: DeclarationNo,
) -> Result<Factories, NoMemory>
    ensures { IfOk result (λ r. AreFactories (factories_text factories.now) home members.now r) }
{
    let names = member_names(alloc, members)?;
    let held = factories.of(home)?;
    Ok(Factories::new(names, held))
}

// A home as a schema holds it.
fn home_record(
    alloc: Global,
    text: &Text,
    factories: &HomeFactories,
    home: DeclarationNo,
    laid: Laid<'_>,
    keys: KeyNos,
) -> Result<Home, NoMemory>
    requires laid { IsLaid (text_in text.now) (types_in text.now.standings.now) home laid }
    requires factories { factories_text factories.now ≡ text_in text.now }
    ensures { IfOk result (λ r. keys ≡ key_numbers (text_in text.now) home → r ≡ home_of (text_in text.now) (standings (text_in text.now)) home) }
{
    let made = factories_of(alloc, factories, &laid.members, home)?;
    let members = member_list(
        alloc,
        text.standings.types(),
        &laid.referents,
        &laid.members,
    )?;
    Ok(Home {
        name: laid.name,
        base: laid.base,
        layout: Layout { members },
        keys,
        factories: made,
    })
}

// Numbers the keys of a home.
fn number_keys(
    alloc: Global,
    text: &Text,
    making: &mut Making,
    home: DeclarationNo,
    members: &[TypedMember<'_>],
    front: TextLength,
) -> Result<Numbered, NoMemory>
    requires ready { IsReady (text_in text.now) making.old }
    requires few { length members.now ≤ most_members }
    ensures ready { IsReady (text_in text.now) making.new }
    ensures homes { making.new.homes ≡ making.old.homes }
    ensures numbered { IfOk result (λ r. (homes more : List ℕ) → HasNames (text_in text.now) home members.now → ComesNext (text_in text.now) homes more home making.old → HasNumberedKeys (text_in text.now) making.new.rows.ids homes home front.0 making.new.keys r) }
{
    let base = text.lineage.base_home(home);
    let held = making.home_keys.held(alloc, &making.rows, home, base)?;
    let introducing = Introducing {
        home,
        number: text.home_no(home),
        members,
    };
    number_all(
        alloc,
        &mut making.keys,
        &mut making.conformity,
        &introducing,
        &held,
        front,
    )
}

// Makes a home, unless the shape gets too long with it. Answers the length of the shape with it.
fn add_home(
    alloc: Global,
    text: &Text,
    making: &mut Making,
    home: DeclarationNo,
    front: TextLength,
) -> Result<TextLength, NoMemory>
    requires one { IsOne text.now }
    requires ready { IsReady (text_in text.now) making.old }
    ensures ready { IsReady (text_in text.now) making.new }
    ensures length { IfOk result (λ r. (homes more : List ℕ) → ComesNext (text_in text.now) homes more home making.old → r.0 ≡ cut (front.0 + length (lines_of (text_in text.now) home))) }
    ensures made { IfOk result (λ r. (homes more : List ℕ) → ComesNext (text_in text.now) homes more home making.old → nat_lt most_shape r.0 ≡ false → AreMade (text_in text.now) (homes ++ home ∷ []) making.new) }
{
    let laid = lay_out(alloc, text, &mut making.layouts, &mut making.heirs, home)?;
    let between = with_laid(text, home, &laid, front);
    let numbered = number_keys(alloc, text, making, home, &laid.members, between)?;
    let length = numbered.length;
    if length.is_over() {
        return Ok(length);
    }
    let record = home_record(alloc, text, &making.factories, home, laid, numbered.numbers)?;
    making.homes.push(record)?;
    Ok(length)
}

/// Makes all homes, up to the one with which the shape gets too long.
pub(crate) fn add_homes(
    alloc: Global,
    text: &Text,
    making: &mut Making,
) -> Result<Option<DeclarationNo>, NoMemory>
    requires one { IsOne text.now }
    requires ready { IsReady (text_in text.now) making.old }
    requires none { AreMade (text_in text.now) [] making.old }
    ensures passing { IfOk result (λ r. r ≡ option_and_then (nth (descent.concrete_homes (text_in text.now))) (passing (schema (text_in text.now)))) }
    ensures made { IfOk result (λ r. IfNone r (AreMade (text_in text.now) (descent.concrete_homes (text_in text.now)) making.new)) }
{
    let mut length = TextLength::of(b"");
    for place in 0..text.lineage.home_count() {
        let Some(home) = text.lineage.home(place) else {
            return Ok(None);
        };
        length = add_home(alloc, text, making, home, length)?;
        if length.is_over() {
            return Ok(Some(home));
        }
    }
    Ok(None)
}
