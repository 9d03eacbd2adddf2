// The declarations of a text one by one in the walk of bodies.
ghost use Rattle.std.specs.Prelude.{◌≡◌, ◌<◌, ℕ, List, true, IfSome};
ghost use Rattle.type_layout.specs.Types.{PlainType};
ghost use Rattle.psdl_directory.specs.inner.Nodes.{what_view};
ghost use Rattle.psdl_standings.specs.Standings.{as_type};
ghost use Rattle.psdl_standings.specs.Uses as of;
ghost use Rattle.psdl_standings.specs.inner.Tellings.{stand, is_there};
ghost use Rattle.psdl_standings.specs.inner.TypeTables.{entry_type};

use crate::body_faults::BodyFaults;
use crate::need::Need;
use crate::numbered_standing::{NumberedStanding, TypeNo};
use crate::spot::Spot;
use crate::state_entry::StateEntry;
use crate::types::{Node, Types};
use crate::walk::{Walk, index_of};
use psdl_directory::{DeclarationNo, Directory, Header, Least, Use, What};
use psdl_tree::{
    AbstractHomeBody, AbstractTypeBody, Constant, Expression, Identifiers, StorageTypeBody, Struct,
};
use pss_base::NoMemory;
use std::alloc::Global;

fn told_type(number: Option<usize>) -> NumberedStanding
    ensures is { (types : List PlainType) → stand types result ≡ as_type (entry_type types number) }
    ensures there { (count : ℕ) → IfSome number (λ n. n < count) → is_there count result ≡ true }
{
    match number {
        Some(index) => NumberedStanding::OfType(TypeNo { index }),
        None => NumberedStanding::Nothing,
    }
}

fn base_need(what: What<'_>) -> Need
    ensures { result ≡ of.base_need (what_view what.entry) }
{
    match what {
        What::AbstractType(_) => Need::OfAbstractType,
        What::ConcreteType(_) => Need::OfConcreteType,
        What::AbstractHome(_) => Need::OfAbstractHome,
        _ => Need::OfConcreteHome,
    }
}

fn implements_need(what: What<'_>) -> Need
    ensures { result ≡ of.implements_need (what_view what.entry) }
{
    match what {
        What::ConcreteType(_) => Need::OfAbstractType,
        _ => Need::OfAbstractHome,
    }
}

impl<'b, 'a> Walk<'b, 'a> {
    ghost use Rattle.std.specs.Prelude.{◌≡◌, ◌<◌, ◌+◌, ◌++◌, ◌∷◌, ℕ, suc, [], None, true, length, map, option_map, IfOk, OnOk, IfSome};
    ghost use Rattle.std.specs.List.{flat_map};
    ghost use Rattle.std.specs.Option.{option_to_list};
    ghost use Rattle.psdl_tree.specs.Views.{expression_view, struct_view, identifiers_view, constant_view, abstract_type_body_view, storage_type_body_view, abstract_home_body_view};
    ghost use Rattle.psdl_directory.specs.Directories.{all_of};
    ghost use Rattle.psdl_directory.specs.Headers.{header_of, header as header_at, headers as headers_in};
    ghost use Rattle.psdl_directory.specs.Lookup.{at, origin};
    ghost use Rattle.psdl_standings.specs.declared.need.Need.TheVariants as needs;
    ghost use Rattle.std.specs.Option.{option_and_then};
    ghost use Rattle.psdl_directory.specs.Declarations as whats;
    ghost use Rattle.psdl_standings.specs.Standings.{as_type, arrays_by};
    ghost use Rattle.psdl_standings.specs.States.{state_types, AreKeptBelow};
    ghost use Rattle.psdl_standings.specs.Turns.{before_of, alias_type, AreInTurn};
    ghost use Rattle.psdl_standings.specs.inner.Declared.{in_body, body_bounds, store_uses, within, type_uses, type_bounds, header_faults, Tells, IsTold, AreStatesThere, IsLast, IsWalked};
    ghost use Rattle.psdl_standings.specs.inner.Entries.{Notes, AddsStates};
    ghost use Rattle.psdl_standings.specs.inner.Walked.{text_in, done_in, names_in, with_names, use_faults, Goes, Adds};

    pub(crate) fn new(alloc: Global, directory: &'b Directory<'a>) -> Walk<'b, 'a>
        ensures text { text_in result ≡ all_of directory.now }
        ensures walked { IsWalked result [] 0 }
    {
        Walk {
            alloc,
            directory,
            told: Vec::new(alloc),
            types: Types::new(alloc),
            faults: BodyFaults {
                names: Least::new(),
                strings: Least::new(),
                values: Least::new(),
                selves: Least::new(),
            },
        }
    }

    // ---- headers

    fn note_uses(&mut self, need: Need, uses: &[Use])
        ensures goes { Goes self.old self.new }
        ensures noted { self.new.faults ≡ with_names self.old.faults (flat_map (use_faults self.old need) uses.now) }
    {
        for used in uses {
            self.note_use(need, used);
        }
    }

    fn note_managed(&mut self, header: &Header)
        ensures goes { Goes self.old self.new }
        ensures noted { self.new.faults ≡ with_names self.old.faults (flat_map (use_faults self.old needs.OfStorageType) (option_to_list header.now.managed)) }
    {
        if let Some(used) = header.managed() {
            self.note_use(Need::OfStorageType, used);
        }
    }

    fn note_header(&mut self, what: What<'a>, header: &Header)
        ensures goes { Goes self.old self.new }
        ensures noted { self.new.faults ≡ with_names self.old.faults (header_faults self.old (what_view what.entry) header.now) }
    {
        self.note_uses(base_need(what), header.bases());
        self.note_uses(implements_need(what), header.implemented());
        self.note_managed(header);
        self.note_uses(Need::OfAbstractHome, header.provided());
    }

    // ---- bodies

    fn abstract_type(
        &mut self,
        spot: Spot,
        body: &Option<AbstractTypeBody>,
        kept: &mut Vec<StateEntry>,
    ) -> Result<(), NoMemory>
        requires { AreKeptBelow (length self.old.types) (length (text_in self.old)) kept.old.items }
        ensures { OnOk result (AddsStates self.old self.new spot (in_body spot.limit (whats.IsAbstractType (option_map abstract_type_body_view body.now))) (body_bounds spot.limit (whats.IsAbstractType (option_map abstract_type_body_view body.now))) (state_types (whats.IsAbstractType (option_map abstract_type_body_view body.now))) kept.old.items kept.new.items) }
    {
        match body {
            Some(body) => {
                self.type_states(spot, &body.members, kept)?;
                self.type_operations(spot, &body.members)?;
                Ok(())
            }
            None => Ok(()),
        }
    }

    fn concrete_type(
        &mut self,
        spot: Spot,
        body: &Option<StorageTypeBody>,
        kept: &mut Vec<StateEntry>,
    ) -> Result<(), NoMemory>
        requires { AreKeptBelow (length self.old.types) (length (text_in self.old)) kept.old.items }
        ensures { OnOk result (AddsStates self.old self.new spot (in_body spot.limit (whats.IsConcreteType (option_map storage_type_body_view body.now))) (body_bounds spot.limit (whats.IsConcreteType (option_map storage_type_body_view body.now))) (state_types (whats.IsConcreteType (option_map storage_type_body_view body.now))) kept.old.items kept.new.items) }
    {
        match body {
            Some(body) => {
                self.states(spot, &body.states, kept)?;
                Ok(())
            }
            None => Ok(()),
        }
    }

    fn abstract_home(&mut self, spot: Spot, body: &Option<AbstractHomeBody>) -> Result<(), NoMemory>
        ensures { OnOk result (Notes self.old self.new spot (in_body spot.limit (whats.IsAbstractHome (option_map abstract_home_body_view body.now))) (body_bounds spot.limit (whats.IsAbstractHome (option_map abstract_home_body_view body.now)))) }
    {
        match body {
            Some(body) => {
                self.home_operations(spot, &body.members)?;
                Ok(())
            }
            None => Ok(()),
        }
    }

    // What a storage type or home has in its body: states in front of operations, as the definitions have them.
    fn body(
        &mut self,
        spot: Spot,
        what: What<'a>,
        kept: &mut Vec<StateEntry>,
    ) -> Result<(), NoMemory>
        requires { AreKeptBelow (length self.old.types) (length (text_in self.old)) kept.old.items }
        ensures { OnOk result (AddsStates self.old self.new spot (in_body spot.limit (what_view what.entry)) (body_bounds spot.limit (what_view what.entry)) (state_types (what_view what.entry)) kept.old.items kept.new.items) }
    {
        match what {
            What::AbstractType(body) => {
                self.abstract_type(spot, body, kept)?;
                Ok(())
            }
            What::ConcreteType(body) => {
                self.concrete_type(spot, body, kept)?;
                Ok(())
            }
            What::AbstractHome(body) => {
                self.abstract_home(spot, body)?;
                Ok(())
            }
            _ => Ok(()),
        }
    }

    // ---- what declarations stand for

    // The type of the typedef that a declarator is of: it is walked with the first one, and goes from each to the next.
    fn alias_type(
        &mut self,
        number: usize,
        what: What<'a>,
        last: Option<usize>,
    ) -> Result<Option<usize>, NoMemory>
        requires last { (before : ℕ) → before_of (what_view what) ≡ suc before → entry_type self.old.types last ≡ alias_type (text_in self.old) (done_in self.old) number (at (text_in self.old) number).path (what_view what) }
        requires there { IfSome last (λ n. n < length self.old.types) }
        ensures { IfOk result (Adds self.old self.new (record { limit = number; number = number; own = None }) (type_uses number (what_view what.entry)) (type_bounds number (what_view what.entry)) (alias_type (text_in self.old) (done_in self.old) number (at (text_in self.old) number).path (what_view what.entry))) }
    {
        match what {
            What::Alias(before, spec, _) => {
                if before != 0 {
                    return Ok(last);
                }
                let spot = Spot {
                    limit: number,
                    number,
                    own: None,
                };
                let found = self.spec(spot, spec)?;
                Ok(found)
            }
            _ => Ok(None),
        }
    }

    fn alias(
        &mut self,
        number: usize,
        item: Option<usize>,
        dimensions: &[Expression],
    ) -> Result<NumberedStanding, NoMemory>
        requires number { number < length (text_in self.old) }
        requires there { IfSome item (λ n. n < length self.old.types) }
        ensures { IfOk result (Tells self.old self.new (within number None) (of.in_expressions (number + 1) (map expression_view dimensions.now)) (of.bounds_of (number + 1) of.most_elements (map expression_view dimensions.now)) (as_type (option_and_then (arrays_by (names_in self.old (within number None)) (map expression_view dimensions.now)) (entry_type self.old.types item)))) }
    {
        let spot = Spot {
            limit: number + 1,
            number,
            own: None,
        };
        let found = self.arrays(spot, item, dimensions)?;
        Ok(told_type(found))
    }

    // The first declaration of the name of a struct.
    fn own(&self, number: usize) -> Option<usize>
        requires { number < length (text_in self.now) }
        ensures { result ≡ origin (text_in self.now) number }
    {
        index_of(self.directory.origin(DeclarationNo::new(number)))
    }

    fn told_struct(
        &mut self,
        number: usize,
        structure: &'a Struct,
    ) -> Result<NumberedStanding, NoMemory>
        requires { number < length (text_in self.old) }
        ensures { IfOk result (IsTold self.old self.new number (whats.IsStruct (struct_view structure.now))) }
    {
        let spot = Spot {
            limit: number + 1,
            number,
            own: self.own(number),
        };
        let found = self.structure(spot, structure)?;
        Ok(told_type(found))
    }

    fn told_enumeration(
        &mut self,
        enumerators: &'a Identifiers,
    ) -> Result<NumberedStanding, NoMemory>
        ensures { IfOk result (λ told. (number : ℕ) → IsTold self.old self.new number (whats.IsEnumeration (identifiers_view enumerators.now)) told) }
    {
        let added = self.add(Node::Enumeration(enumerators))?;
        Ok(told_type(added))
    }

    // In the type and the expression of a constant its own name does not stand.
    fn told_constant(
        &mut self,
        number: usize,
        constant: &Constant,
    ) -> Result<NumberedStanding, NoMemory>
        ensures { IfOk result (IsTold self.old self.new number (whats.IsConstant (constant_view constant.now))) }
    {
        let spot = Spot {
            limit: number,
            number,
            own: None,
        };
        let told = self.constant(spot, constant)?;
        Ok(told)
    }

    // A storage type, a home or a catalog.
    fn store(
        &mut self,
        number: usize,
        what: What<'a>,
        header: &Header,
        kept: &mut Vec<StateEntry>,
    ) -> Result<(), NoMemory>
        requires number { number < length (text_in self.old) }
        requires header { header.now ≡ header_of (text_in self.old) number (what_view what) }
        requires kept { AreKeptBelow (length self.old.types) (length (text_in self.old)) kept.old.items }
        ensures { OnOk result (AddsStates self.old self.new (within number None) (store_uses number (what_view what.entry)) (body_bounds (number + 1) (what_view what.entry)) (state_types (what_view what.entry)) kept.old.items kept.new.items) }
    {
        let spot = Spot {
            limit: number + 1,
            number,
            own: None,
        };
        self.note_header(what, header);
        self.body(spot, what, kept)?;
        Ok(())
    }

    // What a declaration stands for, by those before it and by the type of its typedef. Its body is walked.
    fn tell(
        &mut self,
        number: usize,
        what: What<'a>,
        header: &Header,
        item: Option<usize>,
        kept: &mut Vec<StateEntry>,
    ) -> Result<NumberedStanding, NoMemory>
        requires number { number < length (text_in self.old) }
        requires header { header.now ≡ header_of (text_in self.old) number (what_view what) }
        requires item { entry_type self.old.types item ≡ alias_type (text_in self.old) (done_in self.old) number (at (text_in self.old) number).path (what_view what) }
        requires there { IfSome item (λ n. n < length self.old.types) }
        requires kept { kept.old.items ≡ [] }
        ensures told { IfOk result (IsTold self.old self.new number (what_view what.entry)) }
        ensures kept { OnOk result (AreStatesThere self.old self.new number (what_view what.entry) kept.new.items) }
    {
        match what {
            What::Constant(constant) => {
                let told = self.told_constant(number, constant)?;
                Ok(told)
            }
            What::Alias(_, _, dimensions) => {
                let told = self.alias(number, item, dimensions)?;
                Ok(told)
            }
            What::Struct(structure) => {
                let told = self.told_struct(number, structure)?;
                Ok(told)
            }
            What::Enumeration(enumerators) => {
                let told = self.told_enumeration(enumerators)?;
                Ok(told)
            }
            _ => {
                self.store(number, what, header, kept)?;
                Ok(NumberedStanding::Nothing)
            }
        }
    }

    // Keeps what is told of the next declaration.
    fn keep(&mut self, told: NumberedStanding) -> Result<(), NoMemory>
        requires { is_there (length self.old.types) told ≡ true }
        ensures text { text_in self.new ≡ text_in self.old }
        ensures types { self.new.types ≡ self.old.types }
        ensures faults { self.new.faults ≡ self.old.faults }
        ensures told { OnOk result (self.new.told.items ≡ self.old.told.items ++ told ∷ []) }
    {
        self.told.push(told)?;
        Ok(())
    }

    // Walks the next declaration. Answers the type of its typedef.
    fn step(
        &mut self,
        number: usize,
        header: &Header,
        last: Option<usize>,
        states: &mut Vec<Vec<StateEntry>>,
    ) -> Result<Option<usize>, NoMemory>
        requires turn { AreInTurn (text_in self.old) }
        requires number { number < length (text_in self.old) }
        requires header { header.now ≡ header_at (text_in self.old) number }
        requires walked { IsWalked self.old states.old.items number }
        requires last { IsLast self.old number last }
        ensures same { OnOk result (text_in self.new ≡ text_in self.old) }
        ensures walked { OnOk result (IsWalked self.new states.new.items (number + 1)) }
        ensures last { IfOk result (IsLast self.new (number + 1)) }
    {
        let what = self.directory.what(DeclarationNo::new(number));
        let item = self.alias_type(number, what, last)?;
        let mut kept = Vec::new(self.alloc);
        let told = self.tell(number, what, header, item, &mut kept)?;
        self.keep(told)?;
        states.push(kept)?;
        Ok(item)
    }

    /// Walks all declarations, whose headers these are. Answers the types of the states of each.
    pub(crate) fn all(&mut self, headers: &[Header]) -> Result<Vec<Vec<StateEntry>>, NoMemory>
        requires turn { AreInTurn (text_in self.old) }
        requires headers { headers.now ≡ headers_in (text_in self.old) }
        requires none { IsWalked self.old [] 0 }
        ensures same { OnOk result (text_in self.new ≡ text_in self.old) }
        ensures walked { IfOk result (λ v. IsWalked self.new v.items (length (text_in self.old))) }
    {
        let mut states = Vec::new(self.alloc);
        let mut item = None;
        for number in 0..headers.len() {
            item = self.step(number, &headers[number], item, &mut states)?;
        }
        Ok(states)
    }
}
