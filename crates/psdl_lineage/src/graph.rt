// The definitions that each declaration names as bases or implements.
ghost use Rattle.std.specs.Prelude.{◌≡◌, ◌<◌, length, IfSome, slice_get};
ghost use Rattle.psdl_lineage.specs.Graph.{parents_in, IsGraph};
ghost use Rattle.psdl_lineage.specs.inner.Rows.{rows_of};

use std::marker::Model;

/// The definitions that each declaration names as bases or implements, in order, by number.
#[derive(Drop)]
pub struct Graph {
    rows: Vec<Vec<usize>>,
}

impl Model for Graph {
    ghost use Rattle.std.specs.Prelude.{List, ℕ};
    ghost use Rattle.psdl_lineage.specs.Graph.{IsGraph};
    ghost use Rattle.psdl_lineage.specs.inner.Rows.{rows_of};

    ghost Value = { List (List ℕ) };

    ghost view = { λ a. rows_of a.rows.items };

    ghost invariant = { λ a. IsGraph (rows_of a.rows.items) };
}

impl Graph {
    pub(crate) fn new(rows: Vec<Vec<usize>>) -> Graph
        requires { IsGraph (rows_of rows.items) }
        ensures { result ≡ rows_of rows.items }
    {
        Graph { rows }
    }

    /// How many declarations there are.
    pub fn len(&self) -> usize
        ensures { result ≡ length self.now }
    {
        self.rows.len()
    }

    /// What a declaration names, in order.
    pub fn parents(&self, number: usize) -> &[usize]
        requires { number < length self.now }
        ensures parents { result.now ≡ parents_in self.now number }
        ensures graph { IsGraph self.now }
    {
        self.rows[number].as_slice()
    }

    /// One of those that a declaration names, by its place among them.
    pub(crate) fn parent(&self, number: usize, place: usize) -> Option<usize>
        requires { number < length self.now }
        ensures parent { result ≡ slice_get (parents_in self.now number) place }
        ensures below { IfSome result (λ p. p < length self.now) }
        ensures place { IfSome result (λ _. place < usize.MAX) }
    {
        at(self.parents(number), place)
    }
}

/// The number at a place.
pub(crate) fn at(numbers: &[usize], place: usize) -> Option<usize>
    ensures at { result ≡ slice_get numbers.now place }
    ensures place { IfSome result (λ _. place < usize.MAX) }
{
    numbers.get(place).copied()
}
