// The calls of a pool that count themselves: each is its twin without a count, and one step.
ghost use Rattle.std.specs.Prelude.{◌≡◌, ◌+◌, Some, IsSome, IsSomeAnd, MatchOption};
ghost use Rattle.std.specs.FinMap as map;
ghost use Rattle.std.specs.Option.{option_map};
ghost use Rattle.link_pool.specs.Rings.{following, first_in, list_in};
ghost use Rattle.link_pool.specs.Meaning.{row_in, col_in, item_in, first_seat, row_and_item, col_and_item, unlinked, AreRings};

use crate::names::{Col, Node, Row};
use crate::pool::Pool;
use pss_base::Steps;
use std::sync::ledger::Ledger;

impl<T> Pool<T> {
    /// Takes a node out of both its rings, and gives one to the room. One step.
    pub fn unlink<L: Ledger>(&mut self, node: Node, steps: &mut Steps<L>) -> T
        requires { IsSome (map.get self.old.nodes node) }
        ensures item { item_in self.old node ≡ Some result }
        ensures unlinked { IsSomeAnd (map.get self.old.nodes node) (λ seat. self.new ≡ unlinked self.old node seat) }
        ensures steps { steps.new ≡ steps.old + 1 }
        ensures rings { AreRings self.new }
    {
        steps.tick();
        self.unlink_uncounted(node)
    }

    /// Unlinks the first node of a row, and answers its column and item. None where the row has no node. One step.
    pub fn take_first_of_row<L: Ledger>(
        &mut self,
        row: Row,
        steps: &mut Steps<L>,
    ) -> Option<(Col, T)>
        requires { IsSome (map.get self.old.rows row) }
        ensures answer { result ≡ option_map col_and_item (first_seat self.old self.old.rows row) }
        ensures unlinked { MatchOption (first_in self.old.rows row) (self.new ≡ self.old) (λ node. IsSomeAnd (map.get self.old.nodes node) (λ seat. self.new ≡ unlinked self.old node seat)) }
        ensures steps { steps.new ≡ steps.old + 1 }
        ensures rings { AreRings self.new }
    {
        steps.tick();
        self.take_first_of_row_uncounted(row)
    }

    /// Unlinks the first node of a column, and answers its row and item. None where the column has no node. One step.
    pub fn take_first_of_col<L: Ledger>(
        &mut self,
        col: Col,
        steps: &mut Steps<L>,
    ) -> Option<(Row, T)>
        requires { IsSome (map.get self.old.cols col) }
        ensures answer { result ≡ option_map row_and_item (first_seat self.old self.old.cols col) }
        ensures unlinked { MatchOption (first_in self.old.cols col) (self.new ≡ self.old) (λ node. IsSomeAnd (map.get self.old.nodes node) (λ seat. self.new ≡ unlinked self.old node seat)) }
        ensures steps { steps.new ≡ steps.old + 1 }
        ensures rings { AreRings self.new }
    {
        steps.tick();
        self.take_first_of_col_uncounted(col)
    }

    /// The first node of a row. None exactly where the row has no node. One step.
    pub fn first_of_row<L: Ledger>(&self, row: Row, steps: &mut Steps<L>) -> Option<Node>
        requires { IsSome (map.get self.now.rows row) }
        ensures first { result ≡ first_in self.now.rows row }
        ensures steps { steps.new ≡ steps.old + 1 }
    {
        steps.tick();
        self.first_of_row_uncounted(row)
    }

    /// The node behind another in its row. None exactly where that is the last. One step.
    pub fn next_in_row<L: Ledger>(&self, node: Node, steps: &mut Steps<L>) -> Option<Node>
        requires { IsSome (map.get self.now.nodes node) }
        ensures next { IsSomeAnd (row_in self.now node) (λ row. result ≡ following node (list_in self.now.rows row)) }
        ensures steps { steps.new ≡ steps.old + 1 }
    {
        steps.tick();
        self.next_in_row_uncounted(node)
    }

    /// The first node of a column. None exactly where the column has no node. One step.
    pub fn first_of_col<L: Ledger>(&self, col: Col, steps: &mut Steps<L>) -> Option<Node>
        requires { IsSome (map.get self.now.cols col) }
        ensures first { result ≡ first_in self.now.cols col }
        ensures steps { steps.new ≡ steps.old + 1 }
    {
        steps.tick();
        self.first_of_col_uncounted(col)
    }

    /// The node behind another in its column. None exactly where that is the last. One step.
    pub fn next_in_col<L: Ledger>(&self, node: Node, steps: &mut Steps<L>) -> Option<Node>
        requires { IsSome (map.get self.now.nodes node) }
        ensures next { IsSomeAnd (col_in self.now node) (λ col. result ≡ following node (list_in self.now.cols col)) }
        ensures steps { steps.new ≡ steps.old + 1 }
    {
        steps.tick();
        self.next_in_col_uncounted(node)
    }
}
