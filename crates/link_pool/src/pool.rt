// Nodes in rings of rows and columns.
ghost use Rattle.std.specs.Prelude.{◌≡◌, ◌<◌, ◌+◌, [], Some, None, IsSome, IsSomeAnd, IfOk, OnOk, OnErr, MatchOption, max};
ghost use Rattle.std.specs.FinMap as map;
ghost use Rattle.std.specs.Option.{option_map};
ghost use Rattle.link_pool.specs.Rings.{following, first_in, list_in};
ghost use Rattle.link_pool.specs.Meaning.{empty_pool, row_in, col_in, item_in, first_seat, row_and_item, col_and_item, inserted, put_ahead, unlinked, AreRings, IsCountable};

use crate::cells::{
    Cell, Side, add_ahead, add_head, add_last, first_of, next_of, remove_head, seat_of, take_out,
};
use crate::names::{Col, Node, Row, Seat};
use pss_base::NoMemory;
use slab::Slab;
use std::alloc::Global;
use std::marker::Model;

/// Nodes, each with an item, that stand in the ring of a row and in the ring of a column.
///
/// A ring lists its nodes in the order in which they came in; `insert_ahead_reserved` alone puts a node first in its
/// column. The room is the number of nodes that may come in without memory; `reserve` makes it. Rows and columns take
/// none of it, and give none back.
///
/// A row, a column or a node is named by what the call that added it answered. Each call has the condition that the
/// names it is given are in this pool. A name that was removed may be given again, and then names what came last.
///
/// Every call but `add_row`, `add_col` and `reserve` takes no memory, and takes the same time however long the rings are.
///
/// A walk along a ring and the taking of a node are one step of a count that is passed to them. Each has a twin without
/// a count, for calls that promise no number of steps.
#[derive(Drop)]
pub struct Pool<T> {
    cells: Slab<Cell<T>>,
    // The number of cells that there are or may come without memory.
    promised: usize,
}

impl<T> Model for Pool<T> {
    ghost use Rattle.link_pool.specs.Meaning.{Meaning, meaning_code};

    ghost Value = { Meaning T };

    ghost coded = { meaning_code T.code };

    ghost use Rattle.link_pool.specs.Cells.{meaning_of, IsWhole};

    ghost view = { λ p. meaning_of p.cells p.promised };

    ghost invariant = { λ p. IsWhole p.cells p.promised };
}

impl<T> Pool<T> {
    /// A pool with no row, no column and no room. It takes no memory.
    pub fn new(alloc: Global) -> Pool<T>
        ensures empty { result ≡ empty_pool }
        ensures rings { AreRings result }
    {
        Pool {
            cells: Slab::new(alloc),
            promised: 0,
        }
    }

    /// Whatever was done to a pool, each of its nodes stands once in the list of its row, once in that of its column, and
    /// in no other list, and a `usize` counts them all. The call does nothing: its contract is the law.
    pub fn rings_hold(&self)
        ensures rings { AreRings self.now }
        ensures counted { IsCountable self.now }
    {
        let _ = self.cells.capacity();
    }

    /// Adds a row with no node. The room stays as it was. After `NoMemory` the pool is as before.
    pub fn add_row(&mut self) -> Result<Row, NoMemory>
        ensures new { IfOk result (λ row. map.get self.old.rows row ≡ None) }
        ensures ok { IfOk result (λ row. self.new ≡ record self.old { rows = map.insert self.old.rows row [] }) }
        ensures err { OnErr result (self.new ≡ self.old) }
        ensures rings { AreRings self.new }
    {
        self.make_cell()?;
        let number = add_head(&mut self.cells, Side::Rows);
        Ok(Row { number })
    }

    /// Adds a column with no node. The room stays as it was. After `NoMemory` the pool is as before.
    pub fn add_col(&mut self) -> Result<Col, NoMemory>
        ensures new { IfOk result (λ col. map.get self.old.cols col ≡ None) }
        ensures ok { IfOk result (λ col. self.new ≡ record self.old { cols = map.insert self.old.cols col [] }) }
        ensures err { OnErr result (self.new ≡ self.old) }
        ensures rings { AreRings self.new }
    {
        self.make_cell()?;
        let number = add_head(&mut self.cells, Side::Cols);
        Ok(Col { number })
    }

    // Makes memory for one more cell.
    fn make_cell(&mut self) -> Result<(), NoMemory>
        ensures ok { OnOk result (self.new ≡ record self.old { room = self.old.room + 1 }) }
        ensures err { OnErr result (self.new ≡ self.old) }
        ensures rings { AreRings self.new }
    {
        let promised = self.promised.checked_add(1).ok_or(NoMemory)?;
        self.cells.reserve(promised - self.cells.len())?;
        self.promised = promised;
        Ok(())
    }

    /// Removes a row that has no node. The room stays as it was.
    pub fn remove_row(&mut self, row: Row)
        requires { map.get self.old.rows row ≡ Some [] }
        ensures removed { self.new ≡ record self.old { rows = map.remove self.old.rows row } }
        ensures rings { AreRings self.new }
    {
        remove_head(&mut self.cells, Side::Rows, row.number);
        self.promised -= 1;
    }

    /// Removes a column that has no node. The room stays as it was.
    pub fn remove_col(&mut self, col: Col)
        requires { map.get self.old.cols col ≡ Some [] }
        ensures removed { self.new ≡ record self.old { cols = map.remove self.old.cols col } }
        ensures rings { AreRings self.new }
    {
        remove_head(&mut self.cells, Side::Cols, col.number);
        self.promised -= 1;
    }

    /// Makes room for `n` nodes, where it is not there yet. After `NoMemory` the pool is as before.
    pub fn reserve(&mut self, n: usize) -> Result<(), NoMemory>
        ensures ok { OnOk result (self.new ≡ record self.old { room = max self.old.room n }) }
        ensures err { OnErr result (self.new ≡ self.old) }
        ensures rings { AreRings self.new }
    {
        let wanted = self.cells.len().checked_add(n).ok_or(NoMemory)?;
        self.cells.reserve(n)?;
        self.promised = self.promised.max(wanted);
        Ok(())
    }

    /// Puts a new node last in both its rings, and takes one of the room.
    pub fn insert_reserved(&mut self, row: Row, col: Col, item: T) -> Node
        requires room { 0 < self.old.room }
        requires row { IsSome (map.get self.old.rows row) }
        requires col { IsSome (map.get self.old.cols col) }
        ensures new { map.get self.old.nodes result ≡ None }
        ensures inserted { self.new ≡ inserted self.old result (record { row = row; col = col; item = item }) }
        ensures rings { AreRings self.new }
    {
        let number = add_last(&mut self.cells, Seat { row, col, item });
        Node { number }
    }

    /// Puts a new node last in its row and first in its column, and takes one of the room.
    pub fn insert_ahead_reserved(&mut self, row: Row, col: Col, item: T) -> Node
        requires room { 0 < self.old.room }
        requires row { IsSome (map.get self.old.rows row) }
        requires col { IsSome (map.get self.old.cols col) }
        ensures new { map.get self.old.nodes result ≡ None }
        ensures inserted { self.new ≡ put_ahead self.old result (record { row = row; col = col; item = item }) }
        ensures rings { AreRings self.new }
    {
        let number = add_ahead(&mut self.cells, Seat { row, col, item });
        Node { number }
    }

    /// Takes a node out of both its rings, and gives one to the room. `unlink` counts it as a step.
    pub fn unlink_uncounted(&mut self, node: Node) -> T
        requires { IsSome (map.get self.old.nodes node) }
        ensures item { item_in self.old node ≡ Some result }
        ensures unlinked { IsSomeAnd (map.get self.old.nodes node) (λ seat. self.new ≡ unlinked self.old node seat) }
        ensures rings { AreRings self.new }
    {
        let Seat {
            row: _,
            col: _,
            item,
        } = take_out(&mut self.cells, node.number);
        item
    }

    /// Unlinks the first node of a row, and answers its column and item. None where the row has no node.
    /// `take_first_of_row` counts it as a step.
    pub fn take_first_of_row_uncounted(&mut self, row: Row) -> Option<(Col, T)>
        requires { IsSome (map.get self.old.rows row) }
        ensures answer { result ≡ option_map col_and_item (first_seat self.old self.old.rows row) }
        ensures unlinked { MatchOption (first_in self.old.rows row) (self.new ≡ self.old) (λ node. IsSomeAnd (map.get self.old.nodes node) (λ seat. self.new ≡ unlinked self.old node seat)) }
        ensures rings { AreRings self.new }
    {
        let node = first_of(&self.cells, Side::Rows, row.number)?;
        let Seat { row: _, col, item } = take_out(&mut self.cells, node.number);
        Some((col, item))
    }

    /// Unlinks the first node of a column, and answers its row and item. None where the column has no node.
    /// `take_first_of_col` counts it as a step.
    pub fn take_first_of_col_uncounted(&mut self, col: Col) -> Option<(Row, T)>
        requires { IsSome (map.get self.old.cols col) }
        ensures answer { result ≡ option_map row_and_item (first_seat self.old self.old.cols col) }
        ensures unlinked { MatchOption (first_in self.old.cols col) (self.new ≡ self.old) (λ node. IsSomeAnd (map.get self.old.nodes node) (λ seat. self.new ≡ unlinked self.old node seat)) }
        ensures rings { AreRings self.new }
    {
        let node = first_of(&self.cells, Side::Cols, col.number)?;
        let Seat { row, col: _, item } = take_out(&mut self.cells, node.number);
        Some((row, item))
    }

    /// The first node of a row. None exactly where the row has no node. `first_of_row` counts it as a step.
    pub fn first_of_row_uncounted(&self, row: Row) -> Option<Node>
        requires { IsSome (map.get self.now.rows row) }
        ensures { result ≡ first_in self.now.rows row }
    {
        first_of(&self.cells, Side::Rows, row.number)
    }

    /// The node behind another in its row. None exactly where that is the last. `next_in_row` counts it as a step.
    pub fn next_in_row_uncounted(&self, node: Node) -> Option<Node>
        requires { IsSome (map.get self.now.nodes node) }
        ensures { IsSomeAnd (row_in self.now node) (λ row. result ≡ following node (list_in self.now.rows row)) }
    {
        next_of(&self.cells, Side::Rows, node.number)
    }

    /// The first node of a column. None exactly where the column has no node. `first_of_col` counts it as a step.
    pub fn first_of_col_uncounted(&self, col: Col) -> Option<Node>
        requires { IsSome (map.get self.now.cols col) }
        ensures { result ≡ first_in self.now.cols col }
    {
        first_of(&self.cells, Side::Cols, col.number)
    }

    /// The node behind another in its column. None exactly where that is the last. `next_in_col` counts it as a step.
    pub fn next_in_col_uncounted(&self, node: Node) -> Option<Node>
        requires { IsSome (map.get self.now.nodes node) }
        ensures { IsSomeAnd (col_in self.now node) (λ col. result ≡ following node (list_in self.now.cols col)) }
    {
        next_of(&self.cells, Side::Cols, node.number)
    }

    /// The item of a node.
    pub fn item(&self, node: Node) -> &T
        requires { IsSome (map.get self.now.nodes node) }
        ensures { item_in self.now node ≡ Some result.now }
    {
        &seat_of(&self.cells, node.number).item
    }

    /// The row of a node.
    pub fn row_of(&self, node: Node) -> Row
        requires { IsSome (map.get self.now.nodes node) }
        ensures { row_in self.now node ≡ Some result }
    {
        seat_of(&self.cells, node.number).row
    }

    /// The column of a node.
    pub fn col_of(&self, node: Node) -> Col
        requires { IsSome (map.get self.now.nodes node) }
        ensures { col_in self.now node ≡ Some result }
    {
        seat_of(&self.cells, node.number).col
    }
}
