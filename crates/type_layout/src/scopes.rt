// The scoped names of modules and catalogs.
ghost use Rattle.std.specs.Prelude.{◌≡◌, ◌++◌, ◌∷◌, [], ℕ, List, OnOk, OnErr, MatchOption, None, length};
ghost use Rattle.std.specs.List.{slice_get};
ghost use Rattle.std.specs.Option.{option_and_then};
ghost use Rattle.std.specs.Str.{bytes_eq};
ghost use Rattle.type_layout.specs.Scopes.{behind, name_at, IsBehind};
ghost use Rattle.type_layout.specs.inner.Lower.{lower as lower_of};

use pss_base::{Bytes, NoMemory};
use std::alloc::Global;
use std::marker::Model;

/// The number of a scope, from 0.
#[derive(Clone, Copy)]
pub struct ScopeNo(pub usize);

/// A module or a catalog: the scope that it stands in, where it stands in one, and its own name.
#[derive(Drop)]
pub struct Scope {
    pub outer: Option<ScopeNo>,
    pub name: Bytes,
}

/// A scope of a list, as it stands there.
#[derive(Clone, Copy)]
pub struct ScopeView<'a> {
    pub outer: Option<ScopeNo>,
    pub name: &'a [u8],
}

/// Modules and catalogs by their scoped names. Each keeps its own name alone, so what they take grows with the text and not with
/// the depth of its modules.
#[derive(Drop)]
pub struct Scopes {
    scopes: Vec<Scope>,
}

impl Model for Scopes {
    ghost use Rattle.std.specs.Prelude.{List, ℕ};
    ghost use Rattle.type_layout.specs.Scopes.{scoped_names};

    ghost Value = { List (List ℕ) };

    ghost view = { λ s. scoped_names s.scopes.items };
}

impl Scopes {
    /// None. It takes no memory.
    pub fn new(alloc: Global) -> Scopes
        ensures { result ≡ [] }
    {
        Scopes {
            scopes: Vec::new(alloc),
        }
    }

    /// How many there are.
    pub fn len(&self) -> usize
        ensures { result ≡ length self.now }
    {
        self.scopes.len()
    }

    /// Puts one last. A scope round it that is not there counts for none. `NoMemory`: the list is as before.
    pub fn push(&mut self, scope: Scope) -> Result<(), NoMemory>
        ensures ok { OnOk result (self.new ≡ self.old ++ behind (option_and_then (λ o. slice_get self.old o.0) scope.outer) scope.name ∷ []) }
        ensures err { OnErr result (self.new ≡ self.old) }
    {
        self.scopes.push(scope)?;
        Ok(())
    }

    /// The scope round one, which has a lower number, and its own name. None exactly where no scope has the number.
    pub fn get(&self, number: ScopeNo) -> Option<ScopeView<'_>>
        ensures { MatchOption result (slice_get self.now number.0 ≡ None) (λ scope. IsBehind self.now number scope.outer scope.name.now) }
    {
        match self.scopes.get(number.0) {
            Some(scope) => Some(ScopeView {
                outer: lower(scope.outer, number),
                name: scope.name.as_slice(),
            }),
            None => None,
        }
    }

    /// Whether a word is the scoped name of one.
    pub fn is_name(&self, number: ScopeNo, word: &[u8]) -> bool
        ensures { result ≡ bytes_eq word.now (name_at self.now number) }
    {
        let mut at = number;
        let mut rest = word;
        while let Some(scope) = self.get(at) {
            let Some(outer) = scope.outer else {
                return rest == scope.name;
            };
            let Some(front) = in_front(rest, b"::", scope.name) else {
                return false;
            };
            at = outer;
            rest = front;
        }
        rest.is_empty()
    }
}

// A scope that stands before this one.
fn lower(outer: Option<ScopeNo>, number: ScopeNo) -> Option<ScopeNo>
    ensures { result ≡ lower_of outer number }
{
    match outer {
        Some(outer) if outer.0 < number.0 => Some(outer),
        _ => None,
    }
}

/// What stands in front of a mark and a name that end a word. None: they do not end it.
pub(crate) fn in_front<'a>(word: &'a [u8], mark: &[u8], name: &[u8]) -> Option<&'a [u8]>
    ensures { MatchOption result ((front : List ℕ) → word.now ≡ front ++ mark.now ++ name.now → ⊥) (λ front. word.now ≡ front.now ++ mark.now ++ name.now) }
{
    match word.strip_suffix(name) {
        Some(rest) => rest.strip_suffix(mark),
        None => None,
    }
}
