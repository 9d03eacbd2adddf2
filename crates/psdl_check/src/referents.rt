// The homes that the references of some members may have. Only what these members refer to has a list: many types may derive
// from one another.

use crate::heirs::Heirs;
use crate::members::{MemberType, TypedMember};
use crate::text::Text;
use pss_base::NoMemory;
use std::alloc::Global;
use std::marker::Model;
use type_layout::HomeNo;

/// The homes that a reference to a definition may have.
#[derive(Drop)]
pub(crate) struct HomesOf {
    definition: usize,
    homes: Vec<HomeNo>,
}

/// The homes that references may have, for each definition that members refer to.
#[derive(Drop)]
pub(crate) struct Referents {
    lists: Vec<HomesOf>,
}

impl Model for Referents {
    ghost use Rattle.std.specs.Prelude.{List, ℕ};
    ghost use Rattle.type_layout.specs.declared.home.HomeNo.{HomeNo};
    ghost use Rattle.psdl_check.specs.inner.Lists.{lists_in};

    ghost Value = { List (ℕ × List HomeNo) };

    ghost view = { λ r. lists_in r.lists.items };
}

impl Referents {
    ghost use Rattle.std.specs.Prelude.{◌≡◌, ◌++◌, ◌∷◌, [], ℕ, false, true, IfOk, OnOk};
    ghost use Rattle.psdl_check.specs.Schemas as schemas;
    ghost use Rattle.psdl_check.specs.inner.Lists.{homes_in, is_held};
    ghost use Rattle.psdl_check.specs.inner.Masks.{AreGroups};
    ghost use Rattle.psdl_check.specs.inner.Referring.{is_reference_to, AreReferents, AreTrue};
    ghost use Rattle.psdl_check.specs.inner.Texts.{text_in};

    // Whether there is a list for a definition.
    fn holds(&self, definition: usize) -> bool
        ensures { result ≡ is_held self.now definition }
    {
        for list in &self.lists {
            if list.definition == definition {
                return true;
            }
        }
        false
    }

    // With a list for a definition that has none.
    fn add(
        &mut self,
        alloc: Global,
        text: &Text,
        heirs: &mut Heirs,
        definition: usize,
    ) -> Result<(), NoMemory>
        requires new { is_held self.old definition ≡ false }
        requires groups { AreGroups (text_in text.now) heirs.old }
        ensures groups { AreGroups (text_in text.now) heirs.new }
        ensures list { OnOk result (self.new ≡ self.old ++ (definition, schemas.referents (text_in text.now) definition) ∷ []) }
    {
        let homes = heirs.referents(alloc, text, definition)?;
        self.lists.push(HomesOf { definition, homes })?;
        Ok(())
    }

    // With a list for what a member refers to.
    fn learn(
        &mut self,
        alloc: Global,
        text: &Text,
        heirs: &mut Heirs,
        member_type: MemberType,
    ) -> Result<(), NoMemory>
        requires groups { AreGroups (text_in text.now) heirs.old }
        ensures groups { AreGroups (text_in text.now) heirs.new }
        ensures right { OnOk result (AreTrue (text_in text.now) self.old → AreTrue (text_in text.now) self.new) }
        ensures kept { OnOk result ((n : ℕ) → is_held self.old n ≡ true → is_held self.new n ≡ true) }
        ensures held { OnOk result ((n : ℕ) → is_reference_to n member_type ≡ true → is_held self.new n ≡ true) }
    {
        if let MemberType::Reference(definition) = member_type {
            if !self.holds(definition) {
                self.add(alloc, text, heirs, definition)?;
            }
        }
        Ok(())
    }

    /// Those of what these members refer to.
    pub(crate) fn new(
        alloc: Global,
        text: &Text,
        heirs: &mut Heirs,
        members: &[TypedMember<'_>],
    ) -> Result<Referents, NoMemory>
        requires groups { AreGroups (text_in text.now) heirs.old }
        ensures groups { AreGroups (text_in text.now) heirs.new }
        ensures referents { IfOk result (λ r. AreReferents (text_in text.now) members.now r) }
    {
        let mut referents = Referents {
            lists: Vec::new(alloc),
        };
        for member in members {
            referents.learn(alloc, text, heirs, member.member_type)?;
        }
        Ok(referents)
    }

    /// The homes that a reference to a definition may have.
    pub(crate) fn of(&self, definition: usize) -> &[HomeNo]
        ensures { result.now ≡ homes_in self.now definition }
    {
        for list in &self.lists {
            if list.definition == definition {
                return list.homes.as_slice();
            }
        }
        &[]
    }
}
