// Types that are added by their parts.
use crate::types::Node;
use crate::walk::Walk;
use psdl_tree::{IntegerSize, IntegerType};
use pss_base::NoMemory;

impl<'b, 'a> Walk<'b, 'a> {
    ghost use Rattle.std.specs.Prelude.{◌<◌, Some, length, option_map, IfOk, IfSome};
    ghost use Rattle.type_layout.specs.Types.{Str};
    ghost use Rattle.psdl_standings.specs.Standings.{integer_type};
    ghost use Rattle.psdl_standings.specs.inner.TypeNodes.{node_type, IsMadeOf};
    ghost use Rattle.psdl_standings.specs.inner.TypeNumbers.{sequence_of, array_of};
    ghost use Rattle.psdl_standings.specs.inner.TypeTables.{entry_type};
    ghost use Rattle.psdl_standings.specs.inner.Walked.{AddsType};

    /// Adds a type. Its number is always there.
    pub(crate) fn add(&mut self, node: Node<'a>) -> Result<Option<usize>, NoMemory>
        requires { IsMadeOf (length self.old.types) node }
        ensures { IfOk result (AddsType self.old self.new (Some (node_type self.old.types node.entry))) }
    {
        let number = self.types.add(node)?;
        Ok(Some(number))
    }

    pub(crate) fn add_integer(&mut self, integer: IntegerType) -> Result<Option<usize>, NoMemory>
        ensures { IfOk result (AddsType self.old self.new (Some (integer_type integer))) }
    {
        match (integer.unsigned, integer.size) {
            (false, IntegerSize::Short) => self.add(Node::Short),
            (false, IntegerSize::Long) => self.add(Node::Long),
            (false, IntegerSize::LongLong) => self.add(Node::LongLong),
            (true, IntegerSize::Short) => self.add(Node::UShort),
            (true, IntegerSize::Long) => self.add(Node::ULong),
            (true, IntegerSize::LongLong) => self.add(Node::ULongLong),
        }
    }

    /// Adds a string type, where its bound is there.
    pub(crate) fn add_text(&mut self, bound: Option<u128>) -> Result<Option<usize>, NoMemory>
        ensures { IfOk result (AddsType self.old self.new (option_map Str bound)) }
    {
        match bound {
            Some(most) => self.add(Node::Text(most)),
            None => Ok(None),
        }
    }

    /// Adds a sequence, where its items' type and its bound are there.
    pub(crate) fn add_sequence(
        &mut self,
        item: Option<usize>,
        bound: Option<u128>,
    ) -> Result<Option<usize>, NoMemory>
        requires { IfSome item (λ n. n < length self.old.types) }
        ensures { IfOk result (AddsType self.old self.new (sequence_of (entry_type self.old.types item) bound)) }
    {
        match (item, bound) {
            (Some(item), Some(most)) => self.add(Node::Sequence(item, most)),
            _ => Ok(None),
        }
    }

    /// Adds an array, where its items' type and their number are there.
    pub(crate) fn add_array(
        &mut self,
        item: Option<usize>,
        count: Option<u128>,
    ) -> Result<Option<usize>, NoMemory>
        requires { IfSome item (λ n. n < length self.old.types) }
        ensures { IfOk result (AddsType self.old self.new (array_of (entry_type self.old.types item) count)) }
    {
        match (item, count) {
            (Some(item), Some(count)) => self.add(Node::Array(item, count)),
            _ => Ok(None),
        }
    }
}
