// The keys that homes have introduced so far.

ghost use Rattle.std.specs.Prelude.{◌≡◌, ◌==◌, ◌<◌, ◌++◌, ◌∷◌, [], ℕ, length, OnOk, if◌then◌else◌};
ghost use Rattle.psdl_check.specs.inner.NumbersIn.{numbers_in};

use crate::key_records::key_of;
use crate::key_rows::OwnKey;
use crate::members::TypedMember;
use psdl_directory::DeclarationNo;
use psdl_lineage::Conformity;
use pss_base::NoMemory;
use std::alloc::Global;
use type_layout::{HomeNo, KeyList};

/// The keys that homes have introduced so far.
#[derive(Drop)]
pub(crate) struct Keys {
    pub list: KeyList,
    // For each the home that introduces it.
    homes: Vec<DeclarationNo>,
    // For each name and list, by number, its keys, rising.
    of_ids: Vec<Vec<usize>>,
}

/// A home that introduces keys: its number in the schema, and its members.
#[derive(Clone, Copy)]
pub(crate) struct Introducing<'h, 'd> {
    pub home: DeclarationNo,
    pub number: HomeNo,
    pub members: &'h [TypedMember<'d>],
}

// Puts a number last among those of a name and list.
fn put_number(of_ids: &mut Vec<Vec<usize>>, id: usize, number: usize) -> Result<(), NoMemory>
    ensures sized { length of_ids.new.items ≡ length of_ids.old.items }
    ensures put { OnOk result (id < length of_ids.old.items → (n : ℕ) → numbers_in of_ids.new.items n ≡ (if id == n then numbers_in of_ids.old.items n ++ number ∷ [] else numbers_in of_ids.old.items n)) }
{
    if id >= of_ids.len() {
        return Ok(());
    }
    of_ids[id].push(number)?;
    Ok(())
}

impl Keys {
    ghost use Rattle.std.specs.Prelude.{◌≡◌, ◌++◌, ◌∷◌, [], List, Some, IfOk, OnOk};
    ghost use Rattle.std.proofs.Common.{get_or};
    ghost use Rattle.psdl_directory.specs.Declarations.{Declaration};
    ghost use Rattle.psdl_lineage.specs.Lineages.{asked_of};
    ghost use Rattle.psdl_check.specs.Schemas.{Introduced};
    ghost use Rattle.psdl_check.specs.declared.key_rows.KeyIds.{KeyIds as Ids};
    ghost use Rattle.psdl_check.specs.inner.Gathered.{FitsIds};
    ghost use Rattle.psdl_check.specs.inner.KeyIds.{id_of, own_view};
    ghost use Rattle.psdl_check.specs.inner.Keys.{AreKeys, number_among};
    ghost use Rattle.psdl_check.specs.inner.KeysMade.{introduction, HasFew, HasLayout};
    ghost use Rattle.psdl_check.specs.inner.NumbersIn.{numbers_in};

    /// None, where there are so many names and lists.
    pub(crate) fn new(alloc: Global, ids: usize) -> Result<Keys, NoMemory>
        ensures { IfOk result (λ k. (all : List Declaration) (numbers : Ids) → FitsIds numbers ids → AreKeys all numbers [] k) }
    {
        let mut of_ids = Vec::new(alloc);
        for _ in 0..ids {
            of_ids.push(Vec::new(alloc))?;
        }
        Ok(Keys {
            list: KeyList::new(alloc),
            homes: Vec::new(alloc),
            of_ids,
        })
    }

    /// A home introduces a key.
    pub(crate) fn introduce(
        &mut self,
        alloc: Global,
        home: &Introducing<'_, '_>,
        key: OwnKey<'_>,
    ) -> Result<(), NoMemory>
        requires few { HasFew home.now }
        ensures { OnOk result ((all : List Declaration) (ids : Ids) (introduced : List Introduced) → HasLayout all home.now → id_of ids (own_view key.entry) ≡ Some key.entry.id → AreKeys all ids introduced self.old → AreKeys all ids (introduced ++ introduction home.now (own_view key.entry) ∷ []) self.new) }
    {
        let number = self.homes.len();
        let record = key_of(alloc, home.number, home.members, &key.listed)?;
        self.list.push(record)?;
        self.homes.push(home.home)?;
        put_number(&mut self.of_ids, key.id, number)?;
        Ok(())
    }

    // The keys of a name and list.
    fn numbers_of(&self, id: usize) -> &[usize]
        ensures { result.now ≡ numbers_in self.now.of_ids.items id }
    {
        match self.of_ids.get(id) {
            Some(numbers) => numbers.as_slice(),
            None => &[],
        }
    }

    // The home that introduced a key.
    fn home_of(&self, number: usize) -> DeclarationNo
        ensures { result ≡ get_or self.now.homes.items number 0 }
    {
        match self.homes.get(number) {
            Some(home) => *home,
            None => DeclarationNo::new(0),
        }
    }

    /// The first key of a name and list that the home, or one that it derives from, introduced.
    pub(crate) fn first_in_line(
        &self,
        alloc: Global,
        conformity: &mut Conformity,
        home: DeclarationNo,
        key: OwnKey<'_>,
    ) -> Result<Option<usize>, NoMemory>
        ensures same { asked_of conformity.new ≡ asked_of conformity.old }
        ensures first { IfOk result (λ r. (ids : Ids) (introduced : List Introduced) → id_of ids (own_view key.entry) ≡ Some key.entry.id → AreKeys (asked_of conformity.old) ids introduced self.now → r ≡ number_among (asked_of conformity.old) home introduced (own_view key.entry)) }
    {
        for number in self.numbers_of(key.id) {
            let derives = conformity.conforms(alloc, home, self.home_of(*number))?;
            if derives {
                return Ok(Some(*number));
            }
        }
        Ok(None)
    }
}
