// A walk over the definitions that others name, each behind those that it names.
ghost use Rattle.std.specs.Prelude.{◌≡◌, ◌<◌, ◌≤◌, ◌∷◌, ◌++◌, [], true, length, drop, IfOk, OnOk, slice_set, if◌then◌else◌, ◌==◌};
ghost use Rattle.psdl_lineage.specs.inner.Walking.{IsWalk, Moved, is_marked, outcome};
ghost use Rattle.psdl_lineage.specs.Descent.{has, without_repeats};
ghost use Rattle.psdl_lineage.specs.Graph.{ancestry_in};
ghost use Rattle.psdl_lineage.specs.inner.Walks.{steps_of, IsIdle};

use crate::graph::Graph;
use crate::marks::Marks;
use pss_base::NoMemory;
use std::alloc::Global;

/// A definition on the way, and how many of those that it names were taken.
#[derive(Clone, Copy)]
pub(crate) struct Step {
    pub number: usize,
    pub next: usize,
}

/// The steps of the way, the outermost first, and what lies behind them all.
#[derive(Drop)]
pub(crate) struct Walk {
    way: Vec<Step>,
    found: Vec<usize>,
}

impl Walk {
    pub(crate) fn new(alloc: Global) -> Walk
        ensures way { result.way.items ≡ [] }
        ensures found { result.found.items ≡ [] }
    {
        Walk {
            way: Vec::new(alloc),
            found: Vec::new(alloc),
        }
    }

    // Steps on a definition, unless it is marked.
    fn enter(&mut self, marks: &mut Marks, number: usize) -> Result<(), NoMemory>
        requires { number < length marks.old }
        ensures sized { length marks.new ≡ length marks.old }
        ensures marks { OnOk result (marks.new ≡ (if is_marked marks.old number then marks.old else slice_set marks.old number true)) }
        ensures way { OnOk result (self.new.way.items ≡ (if is_marked marks.old number then self.old.way.items else self.old.way.items ++ record { number = number; next = 0 } ∷ [])) }
        ensures found { self.new.found.items ≡ self.old.found.items }
    {
        if !marks.has(number) {
            marks.mark(number);
            self.way.push(Step { number, next: 0 })?;
        }
        Ok(())
    }

    // Takes the next that is named at a step, or leaves that step.
    fn go(&mut self, graph: &Graph, marks: &mut Marks, step: Step) -> Result<(), NoMemory>
        requires { IsWalk graph.now marks.old (step ∷ steps_of self.old) self.old.found.items }
        ensures sized { length marks.new ≡ length marks.old }
        ensures moved { OnOk result (Moved graph.now marks.old (step ∷ steps_of self.old) self.old.found.items marks.new (steps_of self.new) self.new.found.items) }
    {
        match graph.parent(step.number, step.next) {
            None => {
                self.found.push(step.number)?;
                Ok(())
            }
            Some(parent) => {
                self.way.push(Step {
                    number: step.number,
                    next: step.next + 1,
                })?;
                self.enter(marks, parent)?;
                Ok(())
            }
        }
    }

    /// Begins at a definition. What was found before stays.
    pub(crate) fn begin(
        &mut self,
        graph: &Graph,
        marks: &mut Marks,
        number: usize,
    ) -> Result<(), NoMemory>
        requires number { number < length graph.now }
        requires idle { IsIdle graph.now marks.old self.old }
        ensures sized { length marks.new ≡ length marks.old }
        ensures on { OnOk result (IsWalk graph.now marks.new (steps_of self.new) self.new.found.items) }
        ensures same { OnOk result (outcome graph.now (steps_of self.new) self.new.found.items ≡ without_repeats (λ a b. a == b) (self.old.found.items ++ ancestry_in graph.now number)) }
    {
        self.enter(marks, number)?;
        Ok(())
    }

    /// Walks from a definition, and finds what it descends from, in order, but what was found before.
    pub(crate) fn run(
        &mut self,
        graph: &Graph,
        marks: &mut Marks,
        number: usize,
    ) -> Result<(), NoMemory>
        requires number { number < length graph.now }
        requires idle { IsIdle graph.now marks.old self.old }
        ensures sized { length marks.new ≡ length marks.old }
        ensures idle { OnOk result (IsIdle graph.now marks.new self.new) }
        ensures found { OnOk result (self.new.found.items ≡ without_repeats (λ a b. a == b) (self.old.found.items ++ ancestry_in graph.now number)) }
    {
        self.begin(graph, marks, number)?;
        while let Some(step) = self.way.pop() {
            self.go(graph, marks, step)?;
        }
        Ok(())
    }

    /// Goes on until a definition is entered, or until nothing is left, and says whether what is to be found has it.
    pub(crate) fn reach(
        &mut self,
        graph: &Graph,
        marks: &mut Marks,
        to: usize,
    ) -> Result<bool, NoMemory>
        requires to { to < length graph.now }
        requires on { IsWalk graph.now marks.old (steps_of self.old) self.old.found.items }
        ensures sized { length marks.new ≡ length marks.old }
        ensures on { OnOk result (IsWalk graph.now marks.new (steps_of self.new) self.new.found.items) }
        ensures same { OnOk result (outcome graph.now (steps_of self.new) self.new.found.items ≡ outcome graph.now (steps_of self.old) self.old.found.items) }
        ensures reached { IfOk result (λ r. r ≡ has (outcome graph.now (steps_of self.old) self.old.found.items) to) }
    {
        while !marks.has(to) {
            match self.way.pop() {
                Some(step) => self.go(graph, marks, step)?,
                None => return Ok(false),
            }
        }
        Ok(true)
    }

    pub(crate) fn into_found(self) -> Vec<usize>
        ensures { result.items ≡ self.found.items }
    {
        self.found
    }

    /// How many were found.
    pub(crate) fn len(&self) -> usize
        ensures { result ≡ length self.now.found.items }
    {
        self.found.len()
    }

    /// What was found but for the first so many.
    pub(crate) fn found_since(&self, before: usize) -> &[usize]
        requires { before ≤ length self.now.found.items }
        ensures { result.now ≡ drop before self.now.found.items }
    {
        &self.found[before..]
    }
}
