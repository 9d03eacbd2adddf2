// The one walk of bodies: names are resolved, expressions assessed and types numbered once, and what is wrong with them
// is noted.
ghost use Rattle.psdl_standings.specs.inner.Tellings.{AreThere};
ghost use Rattle.std.specs.Prelude.{◌≡◌, length};

use crate::body_faults::BodyFaults;
use crate::bound::bound_of;
use crate::need::Need;
use crate::numbered_standing::{NumberedStanding, numbered_standing_at};
use crate::sight::{Sight, note_meaningless, note_own};
use crate::spot::Spot;
use crate::types::{Node, Types};
use psdl_directory::{CheckKind, DeclarationNo, Directory, Use, resolve};
use psdl_tree::{Expression, Name, PlainType as PlainSpec, TypeSpec};
use pss_base::NoMemory;
use std::alloc::Global;

// A bound of a string or sequence is from 1 to this.
const MOST_ITEMS: u32 = 4_294_967_295;

// A dimension of an array is from 1 to this.
const MOST_ELEMENTS: u32 = 65_535;

/// The index of a declaration, where there is one.
pub(crate) fn index_of(number: Option<DeclarationNo>) -> Option<usize>
    ensures { result ≡ number }
{
    match number {
        Some(number) => Some(number.index()),
        None => None,
    }
}

/// What the declarations stand for that were walked so far, and what is wrong with them.
#[derive(Drop)]
pub(crate) struct Walk<'b, 'a> {
    pub alloc: Global,
    pub directory: &'b Directory<'a>,
    pub told: Vec<NumberedStanding>,
    pub types: Types<'a>,
    pub faults: BodyFaults,
    ghost there: { AreThere (length types) told.items },
}

impl<'b, 'a> Walk<'b, 'a> {
    ghost use Rattle.std.specs.Prelude.{◌≡◌, ◌<◌, ◌∷◌, [], map, option_map, IfOk, IfSome};
    ghost use Rattle.std.specs.Option.{option_and_then, option_to_list};
    ghost use Rattle.psdl_tree.specs.Views.{name_view, expression_view, plain_type_view, type_spec_view};
    ghost use Rattle.psdl_directory.specs.Lookup.{as_is, meaning};
    ghost use Rattle.psdl_standings.specs.Standings.{type_of, size_by, plain_by, spec_by, arrays_by};
    ghost use Rattle.psdl_standings.specs.declared.need.Need.TheVariants as needs;
    ghost use Rattle.psdl_standings.specs.declared.spot.Spot.{Spot};
    ghost use Rattle.psdl_standings.specs.Uses as of;
    ghost use Rattle.psdl_standings.specs.inner.TypeNumbers.{bound_by, arrays_of};
    ghost use Rattle.psdl_standings.specs.inner.TypeTables.{entry_type};
    ghost use Rattle.psdl_standings.specs.inner.Walked.{text_in, path_in, names_in, with_names, definition_in, use_faults, Goes, AddsType, Finds, Adds};

    /// Notes what is wrong with a name that was resolved.
    pub(crate) fn note_use(&mut self, need: Need, used: &Use)
        ensures goes { Goes self.old self.new }
        ensures noted { self.new.faults ≡ with_names self.old.faults (use_faults self.old need used.now) }
    {
        match used.meant {
            Some(meant) => {
                let fits = self.meets(need, meant);
                self.faults
                    .names
                    .note_if(!fits, CheckKind::WrongKind, used.place);
            }
            None => note_meaningless(&mut self.faults.names, used),
        }
    }

    // Resolves a name, and notes what is wrong with it.
    fn used(&mut self, spot: Spot, need: Need, name: &Name) -> Result<Use, NoMemory>
        ensures meant { IfOk result (λ used. Finds self.old self.new spot (of.use_of spot.limit need (name_view name.now) ∷ []) [] (meaning as_is (text_in self.old) spot.limit (path_in self.old spot) (name_view name.now)) used.meant) }
        ensures defined { IfOk result (λ used. used.defined ≡ definition_in self.old spot (name_view name.now)) }
    {
        let number = DeclarationNo::new(spot.number);
        let used = resolve(self.alloc, self.directory, spot.limit, number, name)?;
        note_own(&mut self.faults.selves, spot.own, &used);
        self.note_use(need, &used);
        Ok(used)
    }

    /// What a name means.
    pub(crate) fn meaning(
        &mut self,
        spot: Spot,
        need: Need,
        name: &Name,
    ) -> Result<Option<DeclarationNo>, NoMemory>
        ensures { IfOk result (Finds self.old self.new spot (of.use_of spot.limit need (name_view name.now) ∷ []) [] (meaning as_is (text_in self.old) spot.limit (path_in self.old spot) (name_view name.now))) }
    {
        let used = self.used(spot, need, name)?;
        Ok(used.meant)
    }

    /// The definition of what a name means.
    pub(crate) fn defined(
        &mut self,
        spot: Spot,
        need: Need,
        name: &Name,
    ) -> Result<Option<usize>, NoMemory>
        ensures { IfOk result (Finds self.old self.new spot (of.use_of spot.limit need (name_view name.now) ∷ []) [] (definition_in self.old spot (name_view name.now))) }
    {
        let used = self.used(spot, need, name)?;
        Ok(index_of(used.defined))
    }

    // The value of a bound or dimension, from 1 to `most`.
    fn size(&mut self, spot: Spot, most: u32, value: &Expression) -> Result<Option<u128>, NoMemory>
        ensures { IfOk result (Finds self.old self.new spot (of.in_expression spot.limit (expression_view value.now)) (of.bounds_of spot.limit most (expression_view value.now ∷ [])) (size_by (names_in self.old spot) (expression_view value.now))) }
    {
        let sight = Sight {
            directory: self.directory,
            told: &self.told,
            limit: spot.limit,
            number: spot.number,
            own: spot.own,
        };
        let size = bound_of(self.alloc, &sight, &mut self.faults, most, value)?;
        Ok(size)
    }

    // The bound of a string or sequence, and 0 where there is to be none.
    fn bound(&mut self, spot: Spot, bound: &Option<Expression>) -> Result<Option<u128>, NoMemory>
        ensures { IfOk result (Finds self.old self.new spot (of.in_expressions spot.limit (option_to_list (option_map expression_view bound.now))) (of.bounds_of spot.limit of.most_items (option_to_list (option_map expression_view bound.now))) (bound_by (names_in self.old spot) (option_map expression_view bound.now))) }
    {
        match bound {
            Some(value) => self.size(spot, MOST_ITEMS, value),
            None => Ok(Some(0)),
        }
    }

    // The dimensions of an array.
    fn sizes(
        &mut self,
        spot: Spot,
        dimensions: &[Expression],
    ) -> Result<Vec<Option<u128>>, NoMemory>
        ensures { IfOk result (λ v. Finds self.old self.new spot (of.in_expressions spot.limit (map expression_view dimensions.now)) (of.bounds_of spot.limit of.most_elements (map expression_view dimensions.now)) (map (size_by (names_in self.old spot)) (map expression_view dimensions.now)) v.items) }
    {
        let mut sizes = Vec::new(self.alloc);
        for value in dimensions {
            let size = self.size(spot, MOST_ELEMENTS, value)?;
            sizes.push(size)?;
        }
        Ok(sizes)
    }

    // The type that a name stands for.
    fn named(&mut self, spot: Spot, name: &Name) -> Result<Option<usize>, NoMemory>
        ensures { IfOk result (Adds self.old self.new spot (of.use_of spot.limit needs.OfType (name_view name.now) ∷ []) [] (type_of (names_in self.old spot (name_view name.now)))) }
    {
        match self.meaning(spot, Need::OfType, name)? {
            Some(meant) => Ok(numbered_standing_at(&self.told, meant.index()).type_number()),
            None => Ok(None),
        }
    }

    /// A type without brackets, where all its parts are there.
    pub(crate) fn plain(&mut self, spot: Spot, plain: &PlainSpec) -> Result<Option<usize>, NoMemory>
        ensures { IfOk result (Adds self.old self.new spot (of.in_plain spot.limit (plain_type_view plain.now)) (of.plain_bounds spot.limit (plain_type_view plain.now)) (plain_by (names_in self.old spot) (plain_type_view plain.now))) }
    {
        match plain {
            PlainSpec::Integer(integer) => self.add_integer(*integer),
            PlainSpec::Char => self.add(Node::Char),
            PlainSpec::Boolean => self.add(Node::Boolean),
            PlainSpec::Octet => self.add(Node::Octet),
            PlainSpec::String(bound) => {
                let most = self.bound(spot, bound)?;
                let number = self.add_text(most)?;
                Ok(number)
            }
            PlainSpec::Name(name) => self.named(spot, name),
        }
    }

    /// A type, where all its parts are there.
    pub(crate) fn spec(&mut self, spot: Spot, spec: &TypeSpec) -> Result<Option<usize>, NoMemory>
        ensures { IfOk result (Adds self.old self.new spot (of.in_spec spot.limit (type_spec_view spec.now)) (of.spec_bounds spot.limit (type_spec_view spec.now)) (spec_by (names_in self.old spot) (type_spec_view spec.now))) }
    {
        match spec {
            TypeSpec::Plain(plain) => self.plain(spot, plain),
            TypeSpec::Sequence(item, bound) => {
                let item_number = self.spec(spot, item)?;
                let most = self.bound(spot, bound)?;
                let number = self.add_sequence(item_number, most)?;
                Ok(number)
            }
        }
    }

    // Arrays of these sizes, the last one innermost.
    fn arrays_of(
        &mut self,
        item: Option<usize>,
        sizes: &[Option<u128>],
    ) -> Result<Option<usize>, NoMemory>
        requires { IfSome item (λ n. n < length self.old.types) }
        ensures { IfOk result (AddsType self.old self.new (arrays_of sizes.now (entry_type self.old.types item))) }
    {
        let mut whole = item;
        let mut left = sizes.len();
        while left != 0 {
            left -= 1;
            whole = self.add_array(whole, sizes[left])?;
        }
        Ok(whole)
    }

    /// The type of a declarator, by the type in front of it, where all of it is there.
    pub(crate) fn arrays(
        &mut self,
        spot: Spot,
        item: Option<usize>,
        dimensions: &[Expression],
    ) -> Result<Option<usize>, NoMemory>
        requires { IfSome item (λ n. n < length self.old.types) }
        ensures { IfOk result (Adds self.old self.new spot (of.in_expressions spot.limit (map expression_view dimensions.now)) (of.bounds_of spot.limit of.most_elements (map expression_view dimensions.now)) (option_and_then (arrays_by (names_in self.old spot) (map expression_view dimensions.now)) (entry_type self.old.types item))) }
    {
        let sizes = self.sizes(spot, dimensions)?;
        let number = self.arrays_of(item, &sizes)?;
        Ok(number)
    }
}
