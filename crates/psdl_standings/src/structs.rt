// Structs in the walk of bodies. Where a part of one is not there the walk goes on, since its other parts are looked at
// too.
ghost use Rattle.std.specs.Prelude.{◌≡◌, option_map, IfOk};
ghost use Rattle.psdl_standings.specs.inner.Fields.{all_parts};

use crate::spot::Spot;
use crate::types::{FieldNode, Node};
use crate::walk::Walk;
use psdl_tree::{Declarator, Field, Struct};
use pss_base::NoMemory;
use std::alloc::Global;

/// A field, where its type is there.
#[derive(Clone, Copy)]
pub(crate) struct Part<'a> {
    pub name: &'a [u8],
    pub item: Option<usize>,
}

// The fields, where the types of all are there.
fn all_fields<'a>(alloc: Global, parts: &[Part<'a>]) -> Result<Option<Vec<FieldNode<'a>>>, NoMemory>
    ensures { IfOk result (λ r. option_map (λ v. v.items) r ≡ all_parts parts.now) }
{
    let mut fields = Vec::new(alloc);
    for part in parts {
        match part.item {
            Some(item) => fields.push(FieldNode {
                name: part.name,
                item,
            })?,
            None => return Ok(None),
        }
    }
    Ok(Some(fields))
}

impl<'b, 'a> Walk<'b, 'a> {
    ghost use Rattle.std.specs.Prelude.{◌≡◌, ◌<◌, ◌∷◌, [], length, map, IfOk, OnOk, IfSome};
    ghost use Rattle.std.specs.List.{flat_map};
    ghost use Rattle.psdl_tree.specs.Views.{declarator_view, field_view, struct_view};
    ghost use Rattle.psdl_directory.specs.Parts as parts_of;
    ghost use Rattle.psdl_standings.specs.Standings.{fields_by, struct_by};
    ghost use Rattle.psdl_standings.specs.Uses as of;
    ghost use Rattle.psdl_standings.specs.inner.Fields.{struct_of_parts, ArePartsBelow, AddsParts};
    ghost use Rattle.psdl_standings.specs.inner.TypeNumbers.{declared_field};
    ghost use Rattle.psdl_standings.specs.inner.TypeTables.{entry_type};
    ghost use Rattle.psdl_standings.specs.inner.Walked.{names_in, AddsType, Adds};

    fn declarator(
        &mut self,
        spot: Spot,
        item: Option<usize>,
        declarator: &'a Declarator,
        parts: &mut Vec<Part<'a>>,
    ) -> Result<(), NoMemory>
        requires item { IfSome item (λ n. n < length self.old.types) }
        requires parts { ArePartsBelow (length self.old.types) parts.old.items }
        ensures { OnOk result (AddsParts self.old self.new spot (of.in_declarator spot.limit (declarator_view declarator.now)) (of.declarator_bounds spot.limit (declarator_view declarator.now)) (declared_field (names_in self.old spot) (entry_type self.old.types item) (declarator_view declarator.now) ∷ []) parts.old.items parts.new.items) }
    {
        let number = self.arrays(spot, item, &declarator.dimensions)?;
        parts.push(Part {
            name: declarator.name.name.as_slice(),
            item: number,
        })?;
        Ok(())
    }

    fn declarators(
        &mut self,
        spot: Spot,
        item: Option<usize>,
        declarators: &'a [Declarator],
        parts: &mut Vec<Part<'a>>,
    ) -> Result<(), NoMemory>
        requires item { IfSome item (λ n. n < length self.old.types) }
        requires parts { ArePartsBelow (length self.old.types) parts.old.items }
        ensures { OnOk result (AddsParts self.old self.new spot (flat_map (of.in_declarator spot.limit) (map declarator_view declarators.now)) (flat_map (of.declarator_bounds spot.limit) (map declarator_view declarators.now)) (map (declared_field (names_in self.old spot) (entry_type self.old.types item)) (map declarator_view declarators.now)) parts.old.items parts.new.items) }
    {
        for declarator in declarators {
            self.declarator(spot, item, declarator, parts)?;
        }
        Ok(())
    }

    fn field(
        &mut self,
        spot: Spot,
        field: &'a Field,
        parts: &mut Vec<Part<'a>>,
    ) -> Result<(), NoMemory>
        requires { ArePartsBelow (length self.old.types) parts.old.items }
        ensures { OnOk result (AddsParts self.old self.new spot (of.in_field spot.limit (field_view field.now)) (of.field_bounds spot.limit (field_view field.now)) (fields_by (names_in self.old spot) (field_view field.now)) parts.old.items parts.new.items) }
    {
        let item = self.spec(spot, &field.spec)?;
        self.declarator(spot, item, &field.declarators.first, parts)?;
        self.declarators(spot, item, &field.declarators.others, parts)?;
        Ok(())
    }

    fn fields(
        &mut self,
        spot: Spot,
        fields: &'a [Field],
        parts: &mut Vec<Part<'a>>,
    ) -> Result<(), NoMemory>
        requires { ArePartsBelow (length self.old.types) parts.old.items }
        ensures { OnOk result (AddsParts self.old self.new spot (flat_map (of.in_field spot.limit) (map field_view fields.now)) (flat_map (of.field_bounds spot.limit) (map field_view fields.now)) (flat_map (fields_by (names_in self.old spot)) (map field_view fields.now)) parts.old.items parts.new.items) }
    {
        for field in fields {
            self.field(spot, field, parts)?;
        }
        Ok(())
    }

    // Adds a struct of these parts, where all are there.
    fn add_struct(&mut self, parts: &[Part<'a>]) -> Result<Option<usize>, NoMemory>
        requires { ArePartsBelow (length self.old.types) parts.now }
        ensures { IfOk result (AddsType self.old self.new (struct_of_parts self.old.types parts.now)) }
    {
        match all_fields(self.alloc, parts)? {
            Some(fields) => self.add(Node::Struct(fields)),
            None => Ok(None),
        }
    }

    /// The type of a struct, where all its parts are there.
    pub(crate) fn structure(
        &mut self,
        spot: Spot,
        structure: &'a Struct,
    ) -> Result<Option<usize>, NoMemory>
        ensures { IfOk result (Adds self.old self.new spot (flat_map (of.in_field spot.limit) (parts_of.all_fields (struct_view structure.now))) (flat_map (of.field_bounds spot.limit) (parts_of.all_fields (struct_view structure.now))) (struct_by (names_in self.old spot) (struct_view structure.now))) }
    {
        let mut parts = Vec::new(self.alloc);
        self.field(spot, &structure.first, &mut parts)?;
        self.fields(spot, &structure.others, &mut parts)?;
        let number = self.add_struct(&parts)?;
        Ok(number)
    }
}
