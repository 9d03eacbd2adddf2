// Types by number, each made of types with lower numbers.
ghost use Rattle.std.specs.Prelude.{◌≡◌, ◌<◌, ◌^◌, ◌++◌, ◌∷◌, [], map, IfOk, OnOk};
ghost use Rattle.psdl_tree.specs.Views.{identifiers_view};
ghost use Rattle.psdl_directory.specs.Declarations.{all_identifiers};

use crate::enumeration_length::enumeration_length;
use crate::numbered_standing::NumberedStanding;
use crate::range::Range;
use crate::text_length::TextLength;
use psdl_tree::{Identifier, Identifiers};
use pss_base::{Bytes, NoMemory};
use std::alloc::Global;
use std::marker::Model;
use type_layout::{Field, Fields, Names, PlacedNames, Ty};

/// A field of a struct: its name, and the number of its type.
#[derive(Clone, Copy)]
pub(crate) struct FieldNode<'a> {
    pub name: &'a [u8],
    pub item: usize,
}

/// A type, as far as constants look at it.
#[derive(Clone, Copy)]
pub(crate) enum Class {
    /// An integer type or octet, with its values.
    Number(Range),
    /// A string, by its bound, where 0 is none.
    Text(u128),
    Other,
}

/// How a type is made of types with lower numbers. A bound of 0 is none.
#[derive(Drop)]
pub(crate) enum Node<'a> {
    Short,
    Long,
    LongLong,
    UShort,
    ULong,
    ULongLong,
    Char,
    Boolean,
    Octet,
    Text(u128),
    Sequence(usize, u128),
    Array(usize, u128),
    Struct(Vec<FieldNode<'a>>),
    Enumeration(&'a Identifiers),
}

impl<'a> Node<'a> {
    ghost use Rattle.std.specs.Prelude.{List};
    ghost use Rattle.type_layout.specs.Types.{PlainType};
    ghost use Rattle.psdl_standings.specs.inner.Classes.{IsClass};
    ghost use Rattle.psdl_standings.specs.inner.TypeNodes.{node_type};

    // As far as constants look at it.
    fn class(&self) -> Class
        ensures { (types : List PlainType) → IsClass (node_type types self.now) result }
    {
        match self {
            Node::Short => Class::Number(Range::of(-0x8000, 0x7fff, None)),
            Node::Long => Class::Number(Range::of(-0x8000_0000, 0x7fff_ffff, None)),
            Node::LongLong => Class::Number(Range::of(
                -0x8000_0000_0000_0000,
                0x7fff_ffff_ffff_ffff,
                None,
            )),
            Node::UShort => Class::Number(Range::of(0, 0xffff, Some(16))),
            Node::ULong => Class::Number(Range::of(0, 0xffff_ffff, Some(32))),
            Node::ULongLong => Class::Number(Range::of(0, 0xffff_ffff_ffff_ffff, Some(64))),
            Node::Octet => Class::Number(Range::of(0, 0xff, Some(8))),
            Node::Text(bound) => Class::Text(*bound),
            _ => Class::Other,
        }
    }
}

/// Types by number, with the lengths of their texts in the shape.
#[derive(Drop)]
pub struct Types<'a> {
    nodes: Vec<Node<'a>>,
    lengths: Vec<TextLength>,
}

impl<'a> Model for Types<'a> {
    ghost use Rattle.std.specs.Prelude.{List};
    ghost use Rattle.type_layout.specs.Types.{PlainType};
    ghost use Rattle.psdl_standings.specs.inner.TypeNodes.{types_of};

    ghost Value = { List PlainType };

    ghost use Rattle.psdl_standings.specs.inner.TypeCodes.{types_code};

    ghost coded = { types_code };

    ghost view = { λ t. types_of t.nodes.items };

    ghost use Rattle.psdl_standings.specs.inner.TypeLengths.{AreTypes};

    ghost invariant = { λ t. AreTypes t.nodes.items t.lengths.items };
}

impl<'a> Types<'a> {
    ghost use Rattle.std.specs.Prelude.{◌≡◌, ◌<◌, ◌≤◌, ◌++◌, ◌∷◌, [], length, map, nat_lt, not, IsTrue, IfOk, OnOk, OnErr};
    ghost use Rattle.type_layout.specs.Keys.{may_be_keyed};
    ghost use Rattle.std.specs.List.{list_all};
    ghost use Rattle.type_layout.specs.Types.{Struct, fields_of};
    ghost use Rattle.type_layout.specs.Views.{plain_type, plain_fields};
    ghost use Rattle.psdl_standings.specs.SmallTypes.{IsSmall, AreSmall};
    ghost use Rattle.psdl_standings.specs.Standings.{StandsForType};
    ghost use Rattle.psdl_standings.specs.Uses.{may_be_constant};
    ghost use Rattle.psdl_standings.specs.inner.Classes.{IsClass};
    ghost use Rattle.psdl_standings.specs.inner.Tellings.{stand};
    ghost use Rattle.psdl_standings.specs.TextLengths.{text_length};
    ghost use Rattle.psdl_standings.specs.inner.TypeLengths.{fields_behind};
    ghost use Rattle.psdl_standings.specs.inner.TypeNodes.{type_at, field_type, node_type, IsMadeOf};

    /// None. It takes no memory.
    pub fn new(alloc: Global) -> Types<'a>
        ensures { result ≡ [] }
    {
        Types {
            nodes: Vec::new(alloc),
            lengths: Vec::new(alloc),
        }
    }

    /// How many types there are.
    pub fn len(&self) -> usize
        ensures { result ≡ length self.now }
    {
        self.nodes.len()
    }

    /// Adds a type. Answers its number. Without memory the types are as before.
    pub(crate) fn add(&mut self, node: Node<'a>) -> Result<usize, NoMemory>
        requires { IsMadeOf (length self.old) node }
        ensures types { OnOk result (self.new ≡ self.old ++ node_type self.old node.entry ∷ []) }
        ensures err { OnErr result (self.new ≡ self.old) }
        ensures number { IfOk result (λ n. n ≡ length self.old) }
    {
        let length = self.node_length(&node);
        let number = self.nodes.len();
        self.nodes.reserve(1)?;
        self.lengths.reserve(1)?;
        self.nodes.push(node)?;
        self.lengths.push(length)?;
        Ok(number)
    }

    // With the fields of a struct behind what stands in front.
    fn with_fields(&self, fields: &[FieldNode<'_>], front: TextLength) -> TextLength
        requires { IsTrue (list_all (λ f. nat_lt f.item (length self.now)) fields.now) }
        ensures { result.0 ≡ fields_behind self.now front.0 fields.now }
    {
        let mut whole = front;
        for field in fields {
            whole = whole.with_field(field.name, self.length(field.item));
        }
        whole
    }

    fn struct_length(&self, fields: &[FieldNode<'_>]) -> TextLength
        requires { IsTrue (list_all (λ f. nat_lt f.item (length self.now)) fields.now) }
        ensures { result.0 ≡ text_length (Struct (fields_of (map (field_type self.now) fields.now))) }
    {
        if fields.is_empty() {
            return TextLength::of(b"struct()");
        }
        self.with_fields(fields, TextLength::of(b"struct("))
    }

    // How long the text of the type is that a node makes.
    fn node_length(&self, node: &Node<'a>) -> TextLength
        requires { IsMadeOf (length self.now) node.now }
        ensures { result.0 ≡ text_length (node_type self.now node.now) }
    {
        match node {
            Node::Short => TextLength::of(b"short"),
            Node::Long => TextLength::of(b"long"),
            Node::LongLong => TextLength::of(b"longlong"),
            Node::UShort => TextLength::of(b"ushort"),
            Node::ULong => TextLength::of(b"ulong"),
            Node::ULongLong => TextLength::of(b"ulonglong"),
            Node::Char => TextLength::of(b"char"),
            Node::Boolean => TextLength::of(b"boolean"),
            Node::Octet => TextLength::of(b"octet"),
            Node::Text(bound) => TextLength::of_string(*bound),
            Node::Sequence(item, bound) => self.length(*item).of_sequence(*bound),
            Node::Array(item, count) => self.length(*item).of_array(*count),
            Node::Struct(fields) => self.struct_length(fields),
            Node::Enumeration(enumerators) => enumeration_length(*enumerators),
        }
    }

    /// The length of a type's text in the shape.
    pub fn length(&self, number: usize) -> TextLength
        requires { number < length self.now }
        ensures { result.0 ≡ text_length (type_at self.now number) }
    {
        self.lengths[number]
    }

    /// A type, as far as constants look at it.
    pub(crate) fn class(&self, number: usize) -> Class
        requires { number < length self.now }
        ensures { IsClass (type_at self.now number) result }
    {
        self.node(number).class()
    }

    // An integer, octet or string type.
    fn is_constant_type(&self, number: usize) -> bool
        ensures { result ≡ may_be_constant (StandsForType (type_at self.now number)) }
    {
        if number >= self.len() {
            return false;
        }
        match self.class(number) {
            Class::Other => false,
            _ => true,
        }
    }

    /// A struct, a sequence or an array.
    pub(crate) fn is_compound(&self, number: usize) -> bool
        ensures { result ≡ not (may_be_keyed (type_at self.now number)) }
    {
        if number >= self.len() {
            return false;
        }
        match self.node(number) {
            Node::Sequence(_, _) => true,
            Node::Array(_, _) => true,
            Node::Struct(_) => true,
            _ => false,
        }
    }

    /// Whether it stands for an integer, octet or string type.
    pub(crate) fn may_be_constant(&self, told: NumberedStanding) -> bool
        ensures { result ≡ may_be_constant (stand self.now told) }
    {
        match told {
            NumberedStanding::OfType(number) => self.is_constant_type(number.index),
            _ => false,
        }
    }

    // The node that makes the type with that number.
    pub(crate) fn node(&self, number: usize) -> &Node<'a>
        requires { number < length self.now }
        ensures made { IsMadeOf number result.now }
        ensures makes { node_type self.now result.now ≡ type_at self.now number }
    {
        &self.nodes[number]
    }

    /// The type with that number. `NoMemory`: there was no room for it.
    #[cycle(build)]
    pub fn build(&self, alloc: Global, number: usize) -> Result<Ty, NoMemory>
        requires number { number < length self.now }
        requires small { IsSmall (type_at self.now number) }
        ensures { IfOk result (λ t. plain_type t ≡ type_at self.now number) }
    {
        match self.node(number) {
            Node::Short => Ok(Ty::Short),
            Node::Long => Ok(Ty::Long),
            Node::LongLong => Ok(Ty::LongLong),
            Node::UShort => Ok(Ty::UShort),
            Node::ULong => Ok(Ty::ULong),
            Node::ULongLong => Ok(Ty::ULongLong),
            Node::Char => Ok(Ty::Char),
            Node::Boolean => Ok(Ty::Boolean),
            Node::Octet => Ok(Ty::Octet),
            Node::Text(bound) => Ok(Ty::Str(count_of(*bound))),
            Node::Sequence(item, bound) => {
                let most = count_of(*bound);
                let item = self.build(alloc, *item)?;
                Ok(Ty::Seq(Box::new(alloc, item)?, most))
            }
            Node::Array(item, size) => {
                let count = count_of(*size);
                let item = self.build(alloc, *item)?;
                Ok(Ty::Arr(Box::new(alloc, item)?, count))
            }
            Node::Struct(fields) => Ok(Ty::Struct(self.build_fields(alloc, number, fields)?)),
            Node::Enumeration(enumerators) => Ok(Ty::Enum(enumerators_of(alloc, *enumerators)?)),
        }
    }

    // Fields of types with numbers below a limit.
    #[cycle(build)]
    fn build_fields(
        &self,
        alloc: Global,
        limit: usize,
        fields: &[FieldNode<'_>],
    ) -> Result<Fields, NoMemory>
        requires limit { limit ≤ length self.now }
        requires fields { IsTrue (list_all (λ f. nat_lt f.item limit) fields.now) }
        requires small { AreSmall (fields_of (map (field_type self.now) fields.now)) }
        ensures { IfOk result (λ built. plain_fields built ≡ map (field_type self.now) fields.now) }
    {
        let mut built = Fields::new(alloc);
        for field in fields {
            let name = Bytes::from_slice(alloc, field.name)?;
            let ty = self.build(alloc, field.item)?;
            built.push(Field { name, ty })?;
        }
        Ok(built)
    }
}

// A bound or a number of items, in the 32 bits that a schema has for it.
fn count_of(number: u128) -> u32
    requires { number < 2 ^ 32 }
    ensures { result ≡ number }
{
    number as u32
}

fn add_name(names: &mut Names, identifier: &Identifier) -> Result<(), NoMemory>
    ensures { OnOk result (names.new ≡ names.old ++ identifier.now.name ∷ []) }
{
    names.push(identifier.name.copy()?)?;
    Ok(())
}

// The names of an enumeration in order.
fn names_of(alloc: Global, enumerators: &Identifiers) -> Result<Names, NoMemory>
    ensures { IfOk result (λ names. names ≡ map (λ i. i.name) (all_identifiers (identifiers_view enumerators.now))) }
{
    let mut names = Names::new(alloc);
    add_name(&mut names, &enumerators.first)?;
    for identifier in &enumerators.others {
        add_name(&mut names, identifier)?;
    }
    Ok(names)
}

// The names of an enumeration, with their places.
fn enumerators_of(alloc: Global, enumerators: &Identifiers) -> Result<PlacedNames, NoMemory>
    ensures { IfOk result (λ names. names ≡ map (λ i. i.name) (all_identifiers (identifiers_view enumerators.now))) }
{
    let names = names_of(alloc, enumerators)?;
    PlacedNames::new(alloc, names)
}
