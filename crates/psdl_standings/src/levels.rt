// How deep types nest.
ghost use Rattle.std.specs.Prelude.{◌≡◌, ◌<◌, suc, List, length, map, max, nat_lt, IsTrue, IfOk};
ghost use Rattle.std.specs.List.{list_all};
ghost use Rattle.type_layout.specs.Types.{PlainType, fields_of};
ghost use Rattle.psdl_standings.specs.Nesting.{nesting, deepest_field};
ghost use Rattle.psdl_standings.specs.inner.Measured.{cut, AreLevels, IsLevelled};
ghost use Rattle.psdl_standings.specs.inner.TypeNodes.{field_type, node_type, IsMadeOf};

use crate::types::{FieldNode, Node, Types};
use pss_base::NoMemory;
use std::alloc::Global;

/// So deep a type may nest.
pub(crate) const DEEPEST: usize = 32;

/// One more stands for all beyond it.
pub(crate) const TOO_DEEP: usize = DEEPEST + 1;

fn one_more(level: usize) -> usize
    ensures { result ≡ cut (suc level) }
{
    level.saturating_add(1).min(TOO_DEEP)
}

fn deeper(first: usize, second: usize) -> usize
    ensures { result ≡ max first second }
{
    if first < second { second } else { first }
}

fn deepest_field(levels: &[usize], fields: &[FieldNode<'_>]) -> usize
    requires { IsTrue (list_all (λ f. nat_lt f.item (length levels.now)) fields.now) }
    ensures { (types : List PlainType) → AreLevels types levels.now → result ≡ cut (deepest_field (fields_of (map (field_type types) fields.now))) }
{
    let mut deepest = 0;
    for field in fields {
        deepest = deeper(deepest, levels[field.item]);
    }
    deepest
}

// How deep a type nests, by how deep those with lower numbers do.
fn node_level(node: &Node<'_>, levels: &[usize]) -> usize
    requires { IsMadeOf (length levels.now) node.now }
    ensures { (types : List PlainType) → AreLevels types levels.now → result ≡ cut (nesting (node_type types node.now)) }
{
    match node {
        Node::Sequence(item, _) => one_more(levels[*item]),
        Node::Array(item, _) => one_more(levels[*item]),
        Node::Struct(fields) => one_more(deepest_field(levels, fields)),
        _ => 1,
    }
}

/// How deep each type nests, by its number.
pub(crate) fn levels_of(alloc: Global, types: &Types<'_>) -> Result<Vec<usize>, NoMemory>
    ensures { IfOk result (λ v. IsLevelled types.now v.items) }
{
    let mut levels = Vec::new(alloc);
    for number in 0..types.len() {
        let level = node_level(types.node(number), &levels);
        levels.push(level)?;
    }
    Ok(levels)
}
