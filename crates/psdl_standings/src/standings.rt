// What the declarations of a text stand for, and what is wrong in their bodies.
ghost use Rattle.psdl_directory.specs.Directories.{all_of};
ghost use Rattle.std.proofs.Props.{props};
ghost use Rattle.psdl_standings.specs.inner.KeptCodes.{kept_set};
ghost use Rattle.psdl_standings.specs.inner.Stood.{HasStood};

use crate::body_faults::BodyFaults;
use crate::extent::Extent;
use crate::levels::levels_of;
use crate::nesting::{deep_of, told_levels};
use crate::state_entry::StateEntry;
use crate::type_extents::extents_of;
use crate::types::Types;
use crate::walk::Walk;
use psdl_directory::{CheckFault, DeclarationNo, Directory, Header};
use pss_base::NoMemory;
use std::alloc::Global;

/// What each declaration of a text stands for, the types of its states, and what is wrong in its bodies.
#[derive(Drop)]
pub struct Standings<'l, 'd> {
    directory: &'l Directory<'d>,
    types: Types<'d>,
    states: Vec<Vec<StateEntry>>,
    extents: Vec<Extent>,
    deep: Vec<bool>,
    faults: BodyFaults,
    ghost stood: { HasStood (all_of directory.now) types states.items extents.items deep.items faults } by { Prim.hlevel (kept_set, props) },
}

impl<'l, 'd> Standings<'l, 'd> {
    ghost use Rattle.std.specs.Prelude.{◌≡◌, ℕ, List, [], length, map, option_map, IfOk};
    ghost use Rattle.std.specs.List.{flat_map};
    ghost use Rattle.type_layout.specs.declared.home.HomeNo.{HomeNo};
    ghost use Rattle.psdl_directory.specs.Directories.{all_of};
    ghost use Rattle.psdl_directory.specs.Fault.{least, each};
    ghost use Rattle.psdl_directory.specs.Headers.{headers as headers_in};
    ghost use Rattle.psdl_standings.specs.Depths as depths;
    ghost use Rattle.psdl_standings.specs.Extents.{extent, extent_view};
    ghost use Rattle.psdl_standings.specs.Naming.{of_names, of_strings};
    ghost use Rattle.psdl_standings.specs.Ranges.{of_values};
    ghost use Rattle.psdl_standings.specs.Selves.{of_selves};
    ghost use Rattle.psdl_standings.specs.Standings.{standings};
    ghost use Rattle.psdl_standings.specs.States.{type_kept, AreStates, AreKeptBelow, is_compound_kept, flags, own_types};
    ghost use Rattle.psdl_standings.specs.Texts.{text_of, types_in};
    ghost use Rattle.psdl_standings.specs.Turns.{AreInTurn};
    ghost use Rattle.psdl_standings.specs.inner.Declared.{IsWalked};
    ghost use Rattle.psdl_standings.specs.inner.TypeNodes.{type_at};
    ghost use Rattle.psdl_standings.specs.inner.Walked.{text_in};

    // The standings of a text whose declarations were all walked.
    fn of_walk(
        alloc: Global,
        walk: Walk<'l, 'd>,
        states: Vec<Vec<StateEntry>>,
    ) -> Result<Standings<'l, 'd>, NoMemory>
        requires turn { AreInTurn (text_in walk) }
        requires walked { IsWalked walk states.items (length (text_in walk)) }
        ensures { IfOk result (λ s. text_of s ≡ text_in walk.entry) }
    {
        let extents = extents_of(alloc, &walk.types)?;
        let levels = levels_of(alloc, &walk.types)?;
        let nested = told_levels(alloc, &walk.told, &levels)?;
        let deep = deep_of(alloc, walk.directory, &nested)?;
        Ok(Standings {
            directory: walk.directory,
            types: walk.types,
            states,
            extents,
            deep,
            faults: walk.faults,
        })
    }

    /// The standings of a text, by what the names in its headers mean. All declarations of a tree are in turn.
    /// `NoMemory`: there was no room for them and their types.
    pub fn new(
        alloc: Global,
        directory: &'l Directory<'d>,
        headers: &[Header],
    ) -> Result<Standings<'l, 'd>, NoMemory>
        requires turn { AreInTurn (all_of directory.now) }
        requires headers { headers.now ≡ headers_in (all_of directory.now) }
        ensures { IfOk result (λ s. text_of s ≡ all_of directory.now) }
    {
        let mut walk = Walk::new(alloc, directory);
        let states = walk.all(headers)?;
        Standings::of_walk(alloc, walk, states)
    }

    /// The directory of the text.
    pub fn directory(&self) -> &'l Directory<'d>
        ensures { all_of result.now ≡ text_of self.now }
    {
        self.directory
    }

    /// The types of the text, by number.
    pub fn types(&self) -> &Types<'d>
        ensures { result.now ≡ types_in self.now }
    {
        &self.types
    }

    /// The types of the identifiers of the states in the body of a declaration, in order.
    pub fn states(&self, number: DeclarationNo) -> &[StateEntry]
        ensures are { AreStates (text_of self.now) (types_in self.now) number result.now }
        ensures below { AreKeptBelow (length (types_in self.now)) (length (text_of self.now)) result.now }
    {
        match self.states.get(number.index()) {
            Some(states) => states,
            None => &[],
        }
    }

    /// Which of the first so many declarations have states in their bodies. `NoMemory`: there was no room for the list.
    pub fn stated(&self, alloc: Global, count: usize) -> Result<Vec<bool>, NoMemory>
        ensures { IfOk result (λ v. v.items ≡ flags (text_of self.now) count) }
    {
        let mut flags = Vec::new(alloc);
        for index in 0..count {
            let has_states = !self.states(DeclarationNo::new(index)).is_empty();
            flags.push(has_states)?;
        }
        Ok(flags)
    }

    /// The types of the states in these bodies, in order. `NoMemory`: there was no room for the list.
    pub fn kept_in(
        &self,
        alloc: Global,
        bodies: &[DeclarationNo],
    ) -> Result<Vec<StateEntry>, NoMemory>
        ensures types { IfOk result (λ v. (homes : ℕ → List HomeNo) → map (type_kept (types_in self.now) homes) v.items ≡ flat_map (own_types (text_of self.now) homes) bodies.now) }
        ensures below { IfOk result (λ v. AreKeptBelow (length (types_in self.now)) (length (text_of self.now)) v.items) }
    {
        let mut kept = Vec::new(alloc);
        for body in bodies {
            kept.extend_from_slice(self.states(*body))?;
        }
        Ok(kept)
    }

    /// Whether the type of a state is a struct, a sequence, an array or a reference.
    pub fn is_compound(&self, kept: StateEntry) -> bool
        ensures { result ≡ is_compound_kept (types_in self.now) kept }
    {
        match kept {
            StateEntry::Plain(Some(number)) => self.types.is_compound(number),
            StateEntry::Plain(None) => false,
            StateEntry::Reference(definition) => definition.is_some(),
        }
    }

    // What the default of a type takes.
    fn extent_at(&self, number: usize) -> Extent
        ensures { extent_view result ≡ extent (type_at (types_in self.now) number) }
    {
        match self.extents.get(number) {
            Some(extent) => *extent,
            None => Extent::OCTET,
        }
    }

    /// What the default of a state takes, where its type is there. A reference's default is nil.
    pub fn extent(&self, kept: StateEntry) -> Option<Extent>
        ensures { option_map extent_view result ≡ option_map extent (type_kept (types_in self.now) (λ _. []) kept) }
    {
        match kept {
            StateEntry::Plain(Some(number)) => Some(self.extent_at(number)),
            StateEntry::Plain(None) => None,
            StateEntry::Reference(Some(_)) => Some(Extent::NIL),
            StateEntry::Reference(None) => None,
        }
    }

    /// Whether what a typedef's declarator or a struct spells nests too deep.
    pub fn is_deep(&self, number: DeclarationNo) -> bool
        ensures { result ≡ depths.is_deep (text_of self.now) (standings (text_of self.now)) number }
    {
        match self.deep.get(number.index()) {
            Some(deep) => *deep,
            None => false,
        }
    }

    /// The least fault of a name that means nothing, or not what its place needs.
    pub fn names_fault(&self) -> Option<CheckFault>
        ensures { result ≡ least (each (of_names (text_of self.now) (standings (text_of self.now))) (text_of self.now)) }
    {
        self.faults.names.fault()
    }

    /// The least fault of a string where none may stand, or of none where one must.
    pub fn strings_fault(&self) -> Option<CheckFault>
        ensures { result ≡ least (each (of_strings (text_of self.now) (standings (text_of self.now))) (text_of self.now)) }
    {
        self.faults.strings.fault()
    }

    /// The least fault of a value that leaves its range, or of a division by 0.
    pub fn values_fault(&self) -> Option<CheckFault>
        ensures { result ≡ least (each (of_values (text_of self.now) (standings (text_of self.now))) (text_of self.now)) }
    {
        self.faults.values.fault()
    }

    /// The least fault of a name by which a struct names itself.
    pub fn selves_fault(&self) -> Option<CheckFault>
        ensures { result ≡ least (each (of_selves (text_of self.now)) (text_of self.now)) }
    {
        self.faults.selves.fault()
    }
}
