// The text and its modules, by number.
ghost use Rattle.std.specs.Prelude.{◌≡◌, ◌<◌, ◌+◌, ◌∷◌, [], length, map, Some, IfSome, IfOk, option_map};
ghost use Rattle.psdl_directory.specs.inner.Scopes.{outer, path_at, path_in, Grows, AreDistinct};

use crate::number::ModuleNo;
use pss_base::NoMemory;
use std::alloc::Global;
use std::collections::BTreeMap;
use std::marker::Model;

/// The name of a module, with the scope that it stands in.
#[derive(Clone, Copy, PartialEq, Eq, PartialOrd, Ord)]
pub(crate) struct ModuleName<'a> {
    pub scope: usize,
    pub name: &'a [u8],
}

/// A module: the scope that it stands in, and its name.
#[derive(Clone, Copy)]
pub(crate) struct Row<'a> {
    pub parent: usize,
    pub name: &'a [u8],
}

/// The scopes of a text. The whole text is the scope 0. A module that is opened again is one scope.
#[derive(Drop)]
pub(crate) struct Scopes<'a> {
    rows: Vec<Row<'a>>,
    inner: BTreeMap<ModuleName<'a>, usize>,
}

impl<'a> Model for Scopes<'a> {
    ghost use Rattle.std.specs.Prelude.{List};
    ghost use Rattle.psdl_directory.specs.Declarations.{Path};
    ghost use Rattle.psdl_directory.specs.inner.Scopes.{paths_of, AreScopes};

    ghost Value = { List Path };

    ghost view = { λ s. paths_of s.rows.items };

    ghost invariant = { λ s. AreScopes s.rows.items s.inner };
}

impl<'a> Scopes<'a> {
    pub(crate) fn new(alloc: Global) -> Scopes<'a>
        ensures { result ≡ [] ∷ [] }
    {
        Scopes {
            rows: Vec::new(alloc),
            inner: BTreeMap::new(alloc),
        }
    }

    /// The scope of the whole text.
    pub(crate) fn root(&self) -> usize
        ensures there { result < length self.now }
        ensures path { path_at self.now result ≡ [] }
    {
        // For the proof alone: the law of the rows is at hand where they are read.
        let _rows = &self.rows;
        0
    }

    /// How many there are. No two are one.
    pub(crate) fn len(&self) -> usize
        ensures len { result ≡ length self.now }
        ensures distinct { AreDistinct self.now }
    {
        self.rows.len() + 1
    }

    /// How many modules there are: the scopes but for that of the text.
    pub(crate) fn modules(&self) -> usize
        ensures { result + 1 ≡ length self.now }
    {
        self.rows.len()
    }

    /// The module whose scope this is. None: it is the scope of the text.
    pub(crate) fn module_in(&self, scope: usize) -> Option<ModuleNo>
        requires { scope < length self.now }
        ensures path { path_in self.now result ≡ path_at self.now scope }
        ensures there { IfSome result (λ number. number + 1 ≡ scope) }
    {
        // For the proof alone: the law of the rows is at hand where they are read.
        let _rows = &self.rows;
        if scope == 0 {
            return None;
        }
        Some(ModuleNo::new(scope - 1))
    }

    /// The scope round this one.
    pub(crate) fn outer(&self, scope: usize) -> Option<usize>
        requires { scope < length self.now }
        ensures path { option_map (path_at self.now) result ≡ outer (path_at self.now scope) }
        ensures lower { IfSome result (λ r. r < scope) }
    {
        let rows = &self.rows;
        if scope == 0 {
            return None;
        }
        Some(rows[scope - 1].parent)
    }

    /// The scope round a module, and the name that it has there.
    pub(crate) fn row_of(&self, number: ModuleNo) -> Row<'a>
        requires { number + 1 < length self.now }
        ensures path { path_in self.now (Some number) ≡ result.name.now ∷ path_at self.now result.parent }
        ensures lower { result.parent < number + 1 }
    {
        self.rows[number.index()]
    }

    // The scope round this one, and the name that this one has in it.
    fn row(&self, scope: usize) -> Row<'a>
        requires above { 0 < scope }
        requires there { scope < length self.now }
        ensures path { path_at self.now scope ≡ result.name.now ∷ path_at self.now result.parent }
        ensures lower { result.parent < scope }
    {
        self.rows[scope - 1]
    }

    /// The names of a scope and of those round it, the innermost first.
    pub(crate) fn names(&self, alloc: Global, scope: usize) -> Result<Vec<&'a [u8]>, NoMemory>
        requires { scope < length self.now }
        ensures { IfOk result (λ names. map (λ n. n.now) names.items ≡ path_at self.now scope) }
    {
        // For the proof alone: the law of the rows is at hand where they are read.
        let _rows = &self.rows;
        let mut names = Vec::new(alloc);
        let mut at = scope;
        while at > 0 {
            let row = self.row(at);
            names.push(row.name)?;
            at = row.parent;
        }
        Ok(names)
    }

    /// The scope of that name in this one, opened where it is not there.
    pub(crate) fn open(&mut self, scope: usize, name: &'a [u8]) -> Result<usize, NoMemory>
        requires { scope < length self.old }
        ensures known { IfOk result (λ n. n < length self.new) }
        ensures path { IfOk result (λ n. path_at self.new n ≡ name.now ∷ path_at self.old scope) }
        ensures kept { Grows self.old self.new }
    {
        let key = ModuleName { scope, name };
        match self.inner.get(&key) {
            Some(number) => Ok(*number),
            None => {
                self.rows.reserve(1)?;
                let number = self.rows.len() + 1;
                self.inner.insert(key, number)?;
                self.rows.push(Row {
                    parent: scope,
                    name,
                })?;
                Ok(number)
            }
        }
    }
}
