// Cells with links forth and back in two families of rings.
ghost use Rattle.std.specs.Prelude.{◌≡◌, ◌+◌, Some, None, IsSome, true, slice_get};
ghost use Rattle.std.specs.Option.{option_map};
ghost use Rattle.slab.specs.Slab.{HasRoomFor, Updates, get, slab_len};
ghost use Rattle.link_pool.specs.Names.{node_named};
ghost use Rattle.link_pool.specs.Linked.{behind, link_to};
ghost use Rattle.link_pool.specs.Cells.{kind_at, next_at, prev_at, home_at, seat_at, list_at, link_of, head_cell, SetsNext, SetsPrev, end_of, front_of, LeadsToCells, IsTaken, IsAdded, IsSound, is_head_at};

use crate::names::{Node, Seat};
use slab::Slab;

/// Rings of rows, or rings of columns.
#[derive(Clone, Copy)]
pub enum Side {
    Rows,
    Cols,
}

/// The neighbours of a place in its ring, or in that of which it is the head.
#[derive(Clone, Copy)]
pub struct Link {
    pub next: usize,
    pub prev: usize,
}

#[derive(Drop)]
pub enum Kind<T> {
    RowHead,
    ColHead,
    Member(Seat<T>),
}

#[derive(Drop)]
pub struct Cell<T> {
    pub row: Link,
    pub col: Link,
    pub kind: Kind<T>,
}

impl<T> Cell<T> {
    ghost use Rattle.link_pool.specs.Cells.{link_of, head_cell};

    // A ring with no node: its head is its own neighbour.
    fn head(side: Side, at: usize) -> Cell<T>
        ensures { result ≡ head_cell side at }
    {
        let link = Link { next: at, prev: at };
        Cell {
            row: link,
            col: link,
            kind: match side {
                Side::Rows => Kind::RowHead,
                Side::Cols => Kind::ColHead,
            },
        }
    }

    fn link(&self, side: Side) -> Link
        ensures { result ≡ link_of side self.now }
    {
        match side {
            Side::Rows => self.row,
            Side::Cols => self.col,
        }
    }
}

impl<T> Seat<T> {
    ghost use Rattle.link_pool.specs.Cells.{head_of};

    // The head of its ring.
    fn head(&self, side: Side) -> usize
        ensures { result ≡ head_of side self.now }
    {
        match side {
            Side::Rows => self.row.number,
            Side::Cols => self.col.number,
        }
    }
}

fn set_next<T>(cells: &mut Slab<Cell<T>>, side: Side, at: usize, to: usize)
    requires { IsSome (kind_at cells.old at) }
    ensures { SetsNext side cells.old cells.new at to }
{
    if let Some(cell) = cells.get_mut(at) {
        match side {
            Side::Rows => cell.row.next = to,
            Side::Cols => cell.col.next = to,
        }
    }
}

fn set_prev<T>(cells: &mut Slab<Cell<T>>, side: Side, at: usize, to: usize)
    requires { IsSome (kind_at cells.old at) }
    ensures { SetsPrev side cells.old cells.new at to }
{
    if let Some(cell) = cells.get_mut(at) {
        match side {
            Side::Rows => cell.row.prev = to,
            Side::Cols => cell.col.prev = to,
        }
    }
}

fn link_at<T>(cells: &Slab<Cell<T>>, side: Side, at: usize) -> Link
    requires { IsSome (kind_at cells.now at) }
    ensures next { result.next ≡ next_at side cells.now at }
    ensures prev { result.prev ≡ prev_at side cells.now at }
{
    match cells.get(at) {
        Some(cell) => cell.link(side),
        None => unreachable!(),
    }
}

/// Where a node stands.
pub fn seat_of<T>(cells: &Slab<Cell<T>>, node: usize) -> &Seat<T>
    requires { IsSome (seat_at cells.now node) }
    ensures { seat_at cells.now node ≡ Some result.now }
{
    match cells.get(node) {
        Some(
            Cell {
                row: _,
                col: _,
                kind: Kind::Member(seat),
            },
        ) => seat,
        _ => unreachable!(),
    }
}

// The place that a link leads to, or none where it leads to the head.
fn place_of(head: usize, to: usize) -> Option<Node>
    ensures { result ≡ option_map node_named (link_to head to) }
{
    if to == head {
        None
    } else {
        Some(Node { number: to })
    }
}

/// The first node of a ring.
pub fn first_of<T>(cells: &Slab<Cell<T>>, side: Side, head: usize) -> Option<Node>
    requires head { is_head_at side cells.now head ≡ true }
    requires sound { IsSound cells.now }
    ensures { result ≡ option_map node_named (slice_get (list_at side cells.now head) 0) }
{
    place_of(head, link_at(cells, side, head).next)
}

/// The node behind another in its ring.
pub fn next_of<T>(cells: &Slab<Cell<T>>, side: Side, node: usize) -> Option<Node>
    requires node { IsSome (seat_at cells.now node) }
    requires sound { IsSound cells.now }
    ensures { option_map (λ head. option_map node_named (behind node (list_at side cells.now head))) (home_at side cells.now node) ≡ Some result }
{
    let head = seat_of(cells, node).head(side);
    place_of(head, link_at(cells, side, node).next)
}

/// Takes a node out of its rings.
pub fn take_out<T>(cells: &mut Slab<Cell<T>>, node: usize) -> Seat<T>
    requires node { IsSome (seat_at cells.old node) }
    requires sound { IsSound cells.old }
    ensures rows { IsTaken Side.Rows cells.old cells.new node }
    ensures cols { IsTaken Side.Cols cells.old cells.new node }
    ensures seat { seat_at cells.old node ≡ Some result }
    ensures len { slab_len cells.new + 1 ≡ slab_len cells.old }
    ensures capacity { cells.new.capacity ≡ cells.old.capacity }
{
    let cell = cells.remove(node);
    set_next(cells, Side::Rows, cell.row.prev, cell.row.next);
    set_prev(cells, Side::Rows, cell.row.next, cell.row.prev);
    set_next(cells, Side::Cols, cell.col.prev, cell.col.next);
    set_prev(cells, Side::Cols, cell.col.next, cell.col.prev);
    match cell.kind {
        Kind::Member(seat) => seat,
        Kind::RowHead | Kind::ColHead => unreachable!(),
    }
}

// The place behind the last of a ring.
fn end_of<T>(cells: &Slab<Cell<T>>, side: Side, head: usize) -> Link
    requires { IsSome (kind_at cells.now head) }
    ensures { result ≡ end_of side cells.now head }
{
    Link {
        next: head,
        prev: link_at(cells, side, head).prev,
    }
}

// The place before the first of a ring.
fn front_of<T>(cells: &Slab<Cell<T>>, side: Side, head: usize) -> Link
    requires { IsSome (kind_at cells.now head) }
    ensures { result ≡ front_of side cells.now head }
{
    Link {
        next: link_at(cells, side, head).next,
        prev: head,
    }
}

/// Puts a node last in the rings of its seat.
pub fn add_last<T>(cells: &mut Slab<Cell<T>>, seat: Seat<T>) -> usize
    requires room { HasRoomFor cells.old 1 }
    requires row { is_head_at Side.Rows cells.old seat.row.number ≡ true }
    requires col { is_head_at Side.Cols cells.old seat.col.number ≡ true }
    requires sound { IsSound cells.old }
    ensures vacant { kind_at cells.old result ≡ None }
    ensures rows { IsAdded Side.Rows cells.old cells.new result seat (end_of Side.Rows cells.old seat.row.number) }
    ensures cols { IsAdded Side.Cols cells.old cells.new result seat (end_of Side.Cols cells.old seat.col.number) }
    ensures len { slab_len cells.new ≡ slab_len cells.old + 1 }
    ensures capacity { cells.new.capacity ≡ cells.old.capacity }
{
    let row = end_of(cells, Side::Rows, seat.row.number);
    let col = end_of(cells, Side::Cols, seat.col.number);
    add_between(cells, seat, row, col)
}

/// Puts a node last in the row of its seat, and first in the column.
pub fn add_ahead<T>(cells: &mut Slab<Cell<T>>, seat: Seat<T>) -> usize
    requires room { HasRoomFor cells.old 1 }
    requires row { is_head_at Side.Rows cells.old seat.row.number ≡ true }
    requires col { is_head_at Side.Cols cells.old seat.col.number ≡ true }
    requires sound { IsSound cells.old }
    ensures vacant { kind_at cells.old result ≡ None }
    ensures rows { IsAdded Side.Rows cells.old cells.new result seat (end_of Side.Rows cells.old seat.row.number) }
    ensures cols { IsAdded Side.Cols cells.old cells.new result seat (front_of Side.Cols cells.old seat.col.number) }
    ensures len { slab_len cells.new ≡ slab_len cells.old + 1 }
    ensures capacity { cells.new.capacity ≡ cells.old.capacity }
{
    let row = end_of(cells, Side::Rows, seat.row.number);
    let col = front_of(cells, Side::Cols, seat.col.number);
    add_between(cells, seat, row, col)
}

// Puts a node between these neighbours in each of its rings.
fn add_between<T>(cells: &mut Slab<Cell<T>>, seat: Seat<T>, row: Link, col: Link) -> usize
    requires room { HasRoomFor cells.old 1 }
    requires row { LeadsToCells cells.old row }
    requires col { LeadsToCells cells.old col }
    ensures vacant { kind_at cells.old result ≡ None }
    ensures rows { IsAdded Side.Rows cells.old cells.new result seat row }
    ensures cols { IsAdded Side.Cols cells.old cells.new result seat col }
    ensures len { slab_len cells.new ≡ slab_len cells.old + 1 }
    ensures capacity { cells.new.capacity ≡ cells.old.capacity }
{
    let node = cells.insert_reserved(Cell {
        row,
        col,
        kind: Kind::Member(seat),
    });
    set_next(cells, Side::Rows, row.prev, node);
    set_prev(cells, Side::Rows, row.next, node);
    set_next(cells, Side::Cols, col.prev, node);
    set_prev(cells, Side::Cols, col.next, node);
    node
}

/// Adds the head of a ring with no node.
pub fn add_head<T>(cells: &mut Slab<Cell<T>>, side: Side) -> usize
    requires { HasRoomFor cells.old 1 }
    ensures vacant { get cells.old result ≡ None }
    ensures updates { Updates cells.old cells.new result (Some (head_cell side result)) }
    ensures len { slab_len cells.new ≡ slab_len cells.old + 1 }
    ensures capacity { cells.new.capacity ≡ cells.old.capacity }
{
    let at = cells.vacant_key();
    cells.insert_reserved(Cell::head(side, at))
}

/// Removes the head of a ring.
pub fn remove_head<T>(cells: &mut Slab<Cell<T>>, side: Side, head: usize)
    requires { is_head_at side cells.old head ≡ true }
    ensures updates { Updates cells.old cells.new head None }
    ensures len { slab_len cells.new + 1 ≡ slab_len cells.old }
    ensures capacity { cells.new.capacity ≡ cells.old.capacity }
{
    let cell = cells.remove(head);
    match cell.kind {
        Kind::RowHead | Kind::ColHead => {}
        Kind::Member(_seat) => unreachable!(),
    }
}
