// What the defaults of types take.
ghost use Rattle.std.specs.Prelude.{◌≡◌, ◌<◌, List, length, map, nat_lt, IsTrue, IfOk};
ghost use Rattle.std.specs.List.{list_all};
ghost use Rattle.type_layout.specs.Types.{PlainType, Arr, Struct, fields_of};
ghost use Rattle.psdl_standings.specs.Extents.{extent, extent_view};
ghost use Rattle.psdl_standings.specs.inner.Measured.{AreExtents, IsMeasured};
ghost use Rattle.psdl_standings.specs.inner.TypeNodes.{type_at, field_type, node_type, IsMadeOf};

use crate::extent::Extent;
use crate::types::{FieldNode, Node, Types};
use pss_base::NoMemory;
use std::alloc::Global;

fn array_extent(extents: &[Extent], item: usize, count: u128) -> Extent
    requires { item < length extents.now }
    ensures { (types : List PlainType) → AreExtents types extents.now → extent_view result ≡ extent (Arr (type_at types item) count) }
{
    extents[item].repeated(count)
}

// The fields of a struct one behind the other.
fn struct_extent(extents: &[Extent], fields: &[FieldNode<'_>]) -> Extent
    requires { IsTrue (list_all (λ f. nat_lt f.item (length extents.now)) fields.now) }
    ensures { (types : List PlainType) → AreExtents types extents.now → extent_view result ≡ extent (Struct (fields_of (map (field_type types) fields.now))) }
{
    let mut whole = Extent::NOTHING;
    for field in fields {
        whole = whole.followed_by(extents[field.item]);
    }
    whole
}

// What the default of a type takes, by what those of the types with lower numbers take. An empty string or sequence has
// its count alone.
fn node_extent(node: &Node<'_>, extents: &[Extent]) -> Extent
    requires { IsMadeOf (length extents.now) node.now }
    ensures { (types : List PlainType) → AreExtents types extents.now → extent_view result ≡ extent (node_type types node.now) }
{
    match node {
        Node::Short => Extent::SHORT,
        Node::UShort => Extent::SHORT,
        Node::Long => Extent::LONG,
        Node::ULong => Extent::LONG,
        Node::LongLong => Extent::LONG_LONG,
        Node::ULongLong => Extent::LONG_LONG,
        Node::Char => Extent::OCTET,
        Node::Boolean => Extent::OCTET,
        Node::Octet => Extent::OCTET,
        Node::Text(_) => Extent::TEXT,
        Node::Sequence(_, _) => Extent::LONG,
        Node::Array(item, count) => array_extent(extents, *item, *count),
        Node::Struct(fields) => struct_extent(extents, fields),
        Node::Enumeration(_) => Extent::LONG,
    }
}

/// What the default of each type takes, by its number.
pub(crate) fn extents_of(alloc: Global, types: &Types<'_>) -> Result<Vec<Extent>, NoMemory>
    ensures { IfOk result (λ v. IsMeasured types.now v.items) }
{
    let mut extents = Vec::new(alloc);
    for number in 0..types.len() {
        let extent = node_extent(types.node(number), &extents);
        extents.push(extent)?;
    }
    Ok(extents)
}
