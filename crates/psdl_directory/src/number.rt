// Numbers of what a text has.
ghost use Rattle.std.specs.Prelude.{◌≡◌};

use std::marker::Model;

/// The number of a declaration, in the order of the text, from 0.
#[derive(Clone, Copy, PartialEq, Eq, PartialOrd, Ord)]
pub struct DeclarationNo {
    index: usize,
}

impl Model for DeclarationNo {
    ghost use Rattle.std.specs.Prelude.{ℕ};

    ghost Value = { ℕ };

    ghost view = { λ n. n.index };

    ghost inverse = { λ n. record { index = n } };
}

impl DeclarationNo {
    /// The number of the declaration at an index.
    pub fn new(index: usize) -> DeclarationNo
        ensures { result ≡ index }
    {
        DeclarationNo { index }
    }

    /// The index of the declaration.
    pub fn index(self) -> usize
        ensures { result ≡ self }
    {
        self.index
    }
}

/// The number of a spelling.
#[derive(Clone, Copy, PartialEq, Eq, PartialOrd, Ord)]
pub struct SpellingNo {
    index: usize,
}

impl Model for SpellingNo {
    ghost use Rattle.std.specs.Prelude.{ℕ};

    ghost Value = { ℕ };

    ghost view = { λ n. n.index };

    ghost inverse = { λ n. record { index = n } };
}

impl SpellingNo {
    /// The number of the spelling at an index.
    pub(crate) fn new(index: usize) -> SpellingNo
        ensures { result ≡ index }
    {
        SpellingNo { index }
    }

    /// The index of the spelling.
    pub fn index(self) -> usize
        ensures { result ≡ self }
    {
        self.index
    }
}

/// The number of a module, from 0. A module that is opened again is one module.
#[derive(Clone, Copy, PartialEq, Eq, PartialOrd, Ord)]
pub struct ModuleNo {
    index: usize,
}

impl Model for ModuleNo {
    ghost use Rattle.std.specs.Prelude.{ℕ};

    ghost Value = { ℕ };

    ghost view = { λ n. n.index };

    ghost inverse = { λ n. record { index = n } };
}

impl ModuleNo {
    /// The number of the module at an index.
    pub fn new(index: usize) -> ModuleNo
        ensures { result ≡ index }
    {
        ModuleNo { index }
    }

    /// The index of the module.
    pub fn index(self) -> usize
        ensures { result ≡ self }
    {
        self.index
    }
}
