// The numbers of the keys that a home has.
ghost use Rattle.std.specs.Prelude.{◌≡◌, ◌≤◌, ◌++◌, ◌∷◌, ◌+◌, [], ℕ, List, Some, false, true, length, nat_lt, IfOk, OnOk};
ghost use Rattle.psdl_directory.specs.Declarations.{Declaration};
ghost use Rattle.psdl_lineage.specs.Lineages.{asked_of};
ghost use Rattle.psdl_lineage.specs.Descent.{Listed as ListedView};
ghost use Rattle.psdl_rules.specs.Faults.Limit.{most_shape};
ghost use Rattle.psdl_check.specs.Schemas.{Introduced, all_introduced};
ghost use Rattle.psdl_check.specs.declared.key_rows.KeyIds.{KeyIds as Ids};
ghost use Rattle.psdl_check.specs.inner.KeyIds.{id_of, own_view};
ghost use Rattle.psdl_check.specs.inner.Keys.{AreKeys, number_among};
ghost use Rattle.psdl_check.specs.inner.HeldKeys.{held_view};
ghost use Rattle.psdl_check.specs.inner.KeysMade.{HasFew, HasLayout, new_one};
ghost use Rattle.psdl_check.specs.inner.Numbering.{AreAllNumbered, AreNumbered, HasNumber, IsNumberable};

use crate::home_keys::HeldKey;
use crate::key_lines::with_key;
use crate::key_rows::OwnKey;
use crate::keys::{Introducing, Keys};
use psdl_lineage::Conformity;
use psdl_standings::TextLength;
use pss_base::NoMemory;
use std::alloc::Global;
use type_layout::{KeyNo, KeyNos};

/// The numbers of a home's keys, and how far the shape reaches with their lines.
#[derive(Drop)]
pub(crate) struct Numbered {
    pub numbers: KeyNos,
    pub length: TextLength,
}

// A home introduces a key, unless its base has it.
fn introduce_new(
    alloc: Global,
    keys: &mut Keys,
    home: &Introducing<'_, '_>,
    key: OwnKey<'_>,
    of_base: bool,
) -> Result<(), NoMemory>
    requires few { HasFew home.now }
    ensures { OnOk result ((all : List Declaration) (ids : Ids) (introduced : List Introduced) → HasLayout all home.now → id_of ids (own_view key.entry) ≡ Some key.entry.id → AreKeys all ids introduced keys.old → AreKeys all ids (introduced ++ new_one of_base home.now (own_view key.entry)) keys.new) }
{
    if of_base {
        return Ok(());
    }
    keys.introduce(alloc, home, key)?;
    Ok(())
}

// The number of a key that has one, in the bits that a schema has for it. No more keys have numbers than the shape may have
// octets.
fn key_no(number: Option<usize>) -> KeyNo
    ensures { (n : ℕ) → number ≡ Some n → n ≤ most_shape + most_shape → result.0 ≡ n }
{
    let Some(place) = number else {
        return KeyNo(0);
    };
    match u32::try_from(place) {
        Ok(fitting) => KeyNo(fitting),
        Err(_) => KeyNo(0),
    }
}

/// The number of a key that a home has, by the keys introduced so far; one that its base does not have is introduced.
pub(crate) fn number_of(
    alloc: Global,
    keys: &mut Keys,
    conformity: &mut Conformity,
    home: &Introducing<'_, '_>,
    key: OwnKey<'_>,
    of_base: bool,
) -> Result<KeyNo, NoMemory>
    requires few { HasFew home.now }
    ensures same { asked_of conformity.new ≡ asked_of conformity.old }
    ensures keys { OnOk result ((ids : Ids) (introduced : List Introduced) → HasLayout (asked_of conformity.old) home.now → id_of ids (own_view key.entry) ≡ Some key.entry.id → AreKeys (asked_of conformity.old) ids introduced keys.old → AreKeys (asked_of conformity.old) ids (introduced ++ new_one of_base home.now (own_view key.entry)) keys.new) }
    ensures number { IfOk result (λ n. (ids : Ids) (introduced : List Introduced) → HasLayout (asked_of conformity.old) home.now → id_of ids (own_view key.entry) ≡ Some key.entry.id → length introduced ≤ most_shape + most_shape → (of_base ≡ true → HasNumber (asked_of conformity.old) home.now.home introduced (own_view key.entry)) → AreKeys (asked_of conformity.old) ids introduced keys.old → number_among (asked_of conformity.old) home.now.home (introduced ++ new_one of_base home.now (own_view key.entry)) (own_view key.entry) ≡ Some n.0) }
{
    introduce_new(alloc, keys, home, key, of_base)?;
    let first = keys.first_in_line(alloc, conformity, home.home, key)?;
    Ok(key_no(first))
}

// Numbers a key of a home.
fn number_next(
    alloc: Global,
    keys: &mut Keys,
    conformity: &mut Conformity,
    home: &Introducing<'_, '_>,
    held: HeldKey<'_>,
    numbered: &mut Numbered,
) -> Result<(), NoMemory>
    requires few { HasFew home.now }
    ensures same { asked_of conformity.new ≡ asked_of conformity.old }
    ensures numbered { OnOk result ((ids : Ids) (introduced more : List Introduced) (views : List ListedView) (front : ℕ) → HasLayout (asked_of conformity.old) home.now → id_of ids (held_view held.entry) ≡ Some held.entry.key.id → all_introduced (asked_of conformity.old) ≡ (introduced ++ new_one held.entry.of_base home.now (held_view held.entry)) ++ more → nat_lt most_shape numbered.old.length.0 ≡ false → (held.entry.of_base ≡ true → HasNumber (asked_of conformity.old) home.now.home introduced (held_view held.entry)) → AreNumbered (asked_of conformity.old) ids introduced home.now.home views front keys.old numbered.old → AreNumbered (asked_of conformity.old) ids (introduced ++ new_one held.entry.of_base home.now (held_view held.entry)) home.now.home (views ++ held_view held.entry ∷ []) front keys.new numbered.new) }
{
    let number = number_of(alloc, keys, conformity, home, held.key, held.of_base)?;
    numbered.length = with_key(&keys.list, number, numbered.length);
    numbered.numbers.push(number)?;
    Ok(())
}

/// Numbers the keys of a home, up to the one with which the shape gets too long.
pub(crate) fn number_all(
    alloc: Global,
    keys: &mut Keys,
    conformity: &mut Conformity,
    home: &Introducing<'_, '_>,
    held: &[HeldKey<'_>],
    front: TextLength,
) -> Result<Numbered, NoMemory>
    requires few { HasFew home.now }
    ensures same { asked_of conformity.new ≡ asked_of conformity.old }
    ensures numbered { IfOk result (λ r. (ids : Ids) (introduced more : List Introduced) → IsNumberable (asked_of conformity.old) ids introduced more home.now held.now keys.old → AreAllNumbered (asked_of conformity.old) ids introduced home.now held.now front.0 keys.new r) }
{
    let mut numbered = Numbered {
        numbers: KeyNos::new(alloc),
        length: front.with(0),
    };
    for key in held {
        if numbered.length.is_over() {
            return Ok(numbered);
        }
        number_next(alloc, keys, conformity, home, *key, &mut numbered)?;
    }
    Ok(numbered)
}
