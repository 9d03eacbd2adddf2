// The declarations of a text, and what names mean.
ghost use Rattle.std.specs.Prelude.{◌≡◌};
ghost use Rattle.psdl_directory.specs.Lookup as lookups;
ghost use Rattle.psdl_directory.specs.inner.Named.{AreNamed};

use crate::declaration::{Declaration, What};
use crate::flat::{Flat, flatten};
use crate::kind::kind_of;
use crate::number::{DeclarationNo, ModuleNo, SpellingNo};
use crate::scoped::Scoped;
use crate::scopes::Scopes;
use crate::spelling::Spelling;
use crate::table::number_of;
use crate::tables::{Firsts, Keys, all_firsts, all_keys};
use psdl_tree::{Name, NamePart, Tree};
use pss_base::{NoMemory, Place};
use std::alloc::Global;
use std::collections::BTreeMap;

/// A module: the one round it, where there is one, and its own name.
#[derive(Clone, Copy)]
pub struct Module<'a> {
    pub outer: Option<ModuleNo>,
    pub name: &'a [u8],
}

/// All declarations in the order of the text.
#[derive(Drop)]
pub struct Directory<'a> {
    scopes: Scopes<'a>,
    declarations: Vec<Declaration<'a>>,
    keys: Keys,
    firsts: Firsts,
    ghost named: { AreNamed scopes declarations.items keys firsts },
}

fn below(number: Option<DeclarationNo>, limit: usize) -> Option<DeclarationNo>
    ensures { result ≡ lookups.below limit number }
{
    match number {
        Some(number) if number.index() < limit => Some(number),
        _ => None,
    }
}

impl<'a> Directory<'a> {
    ghost use Rattle.std.specs.Prelude.{◌≡◌, ◌<◌, ◌+◌, ◌∷◌, ℕ, List, Some, None, length, map, IfOk, IfSome, IfNone};
    ghost use Rattle.psdl_tree.specs.Views.{name_view, tree_view};
    ghost use Rattle.psdl_directory.specs.Declarations.{all_declarations};
    ghost use Rattle.psdl_directory.specs.Directories.{all_of, paths_of, path_of};
    ghost use Rattle.psdl_directory.specs.Lookup.{lower, at, first_of, outwards, first_inside, inwards, beginning, meaning, definition, first, origin};
    ghost use Rattle.psdl_directory.specs.Spelled.{number_of, spelled_by};
    ghost use Rattle.psdl_directory.specs.inner.Flattened.{all_in};
    ghost use Rattle.psdl_directory.specs.inner.Keys.{plain};
    ghost use Rattle.psdl_directory.specs.inner.Named.{Indexes};
    ghost use Rattle.psdl_directory.specs.inner.Nodes.{what_view};
    ghost use Rattle.psdl_directory.specs.inner.Scopes.{path_at};

    fn of_flat(alloc: Global, flat: Flat<'a>) -> Result<Directory<'a>, NoMemory>
        ensures { IfOk result (λ d. all_of d ≡ all_in flat.entry) }
    {
        let keys = all_keys(alloc, &flat.declarations)?;
        let firsts = all_firsts(alloc, &keys, &flat.declarations)?;
        Ok(Directory {
            scopes: flat.scopes,
            declarations: flat.declarations,
            keys,
            firsts,
        })
    }

    /// The declarations of a tree. `NoMemory`: there was no room for their tables.
    pub fn new(alloc: Global, tree: &'a Tree) -> Result<Directory<'a>, NoMemory>
        ensures { IfOk result (λ d. all_of d ≡ all_declarations (tree_view tree.now)) }
    {
        let flat = flatten(alloc, tree)?;
        Directory::of_flat(alloc, flat)
    }

    /// How many declarations there are.
    pub fn len(&self) -> usize
        ensures { result ≡ length (all_of self.now) }
    {
        self.declarations.len()
    }

    /// How many declarations a name in the body of a declaration may mean: those before it, and it.
    pub(crate) fn limit_at(&self, number: DeclarationNo) -> usize
        requires { number < length (all_of self.now) }
        ensures { result ≡ number + 1 }
    {
        number.index() + 1
    }

    /// What a declaration declares.
    pub fn what(&self, number: DeclarationNo) -> What<'a>
        ensures { what_view result ≡ (at (all_of self.now) number).what }
    {
        match self.declarations.get(number.index()) {
            Some(declaration) => declaration.what,
            None => What::Module(0),
        }
    }

    /// The name of a declaration.
    pub fn name(&self, number: DeclarationNo) -> &'a [u8]
        ensures { result.now ≡ (at (all_of self.now) number).name }
    {
        match self.declarations.get(number.index()) {
            Some(declaration) => declaration.name,
            None => &[],
        }
    }

    /// Where the name of a declaration stands.
    pub fn place(&self, number: DeclarationNo) -> Place
        ensures { result ≡ (at (all_of self.now) number).place }
    {
        match self.declarations.get(number.index()) {
            Some(declaration) => declaration.place,
            None => Place {
                line: 0,
                column: 0,
                offset: 0,
            },
        }
    }

    fn scope(&self, number: DeclarationNo) -> usize
        ensures there { result < length self.now.scopes }
        ensures path { path_at self.now.scopes result ≡ (at (all_of self.now) number).path }
    {
        match self.declarations.get(number.index()) {
            Some(declaration) => declaration.scope,
            None => self.scopes.root(),
        }
    }

    /// The names of the modules round a declaration, the innermost first. `NoMemory`: there was no room for the list.
    pub fn modules(&self, alloc: Global, number: DeclarationNo) -> Result<Vec<&'a [u8]>, NoMemory>
        ensures { IfOk result (λ names. map (λ n. n.now) names.items ≡ (at (all_of self.now) number).path) }
    {
        self.scopes.names(alloc, self.scope(number))
    }

    /// How many modules there are.
    pub fn module_count(&self) -> usize
        ensures { result + 1 ≡ length (paths_of self.now) }
    {
        self.scopes.modules()
    }

    /// A module. The one round it has a lower number.
    pub fn module(&self, number: ModuleNo) -> Module<'a>
        requires { number + 1 < length (paths_of self.now) }
        ensures path { path_of self.now (Some number) ≡ result.name.now ∷ path_of self.now result.outer }
        ensures before { IfSome result.outer (λ outer. outer < number) }
    {
        let row = self.scopes.row_of(number);
        Module {
            outer: self.scopes.module_in(row.parent),
            name: row.name,
        }
    }

    /// The module that a declaration stands in, where it stands in one.
    pub fn module_of(&self, number: DeclarationNo) -> Option<ModuleNo>
        ensures there { IfSome result (λ number. number + 1 < length (paths_of self.now)) }
        ensures path { path_of self.now result ≡ (at (all_of self.now) number).path }
    {
        self.scopes.module_in(self.scope(number))
    }

    fn table(&self, spelling: Spelling) -> &BTreeMap<Scoped, DeclarationNo>
        ensures { Indexes (spelled_by spelling) plain self.now.keys.spellings result.now self.now.declarations.items }
    {
        match spelling {
            Spelling::AsIs => &self.firsts.exact,
            Spelling::Lower => &self.firsts.small,
        }
    }

    // The first of a name in a scope, of the first so many, by the name's number.
    fn first_of(
        &self,
        spelling: Spelling,
        limit: usize,
        scope: usize,
        name: SpellingNo,
    ) -> Option<DeclarationNo>
        requires { scope < length self.now.scopes }
        ensures first { (spelled : List ℕ) → number_of self.now.keys.spellings (spelled_by spelling spelled) ≡ Some name → result ≡ first_of (spelled_by spelling) (all_of self.now) limit (path_at self.now.scopes scope) spelled }
    {
        let key = Scoped {
            scope,
            kind: None,
            spelling: name,
        };
        let first = number_of(self.table(spelling), key);
        below(first, limit)
    }

    // The first of a name, from a scope outwards.
    fn outwards(
        &self,
        spelling: Spelling,
        limit: usize,
        scope: usize,
        name: SpellingNo,
    ) -> Option<DeclarationNo>
        requires { scope < length self.now.scopes }
        ensures { (spelled : List ℕ) → number_of self.now.keys.spellings (spelled_by spelling spelled) ≡ Some name → result ≡ outwards (λ p. first_of (spelled_by spelling) (all_of self.now) limit p spelled) (path_at self.now.scopes scope) }
    {
        let mut at = scope;
        loop {
            match self.first_of(spelling, limit, at, name) {
                Some(first) => return Some(first),
                None => match self.scopes.outer(at) {
                    None => return None,
                    Some(next) => at = next,
                },
            }
        }
    }

    // The scope inside a declaration. Without one, nothing is found inside.
    fn inside_of(&self, number: DeclarationNo) -> Option<usize>
        requires { number < length (all_of self.now) }
        ensures there { IfSome result (λ s. s < length self.now.scopes) }
        ensures some { IfSome result (λ s. (spelled : List ℕ → List ℕ) (limit : ℕ) (name : List ℕ) → first_inside spelled (all_of self.now) limit number name ≡ first_of spelled (all_of self.now) limit (path_at self.now.scopes s) name) }
        ensures none { IfNone result ((spelled : List ℕ → List ℕ) (limit : ℕ) (name : List ℕ) → first_inside spelled (all_of self.now) limit number name ≡ None) }
    {
        match self.declarations[number.index()].what {
            What::Module(inner) => Some(inner),
            _ => None,
        }
    }

    // The first of a name in a scope, of the first so many.
    fn first_called(
        &self,
        alloc: Global,
        spelling: Spelling,
        limit: usize,
        scope: usize,
        name: &[u8],
    ) -> Result<Option<DeclarationNo>, NoMemory>
        requires { scope < length self.now.scopes }
        ensures { IfOk result (λ r. r ≡ first_of (spelled_by spelling) (all_of self.now) limit (path_at self.now.scopes scope) name.now) }
    {
        let spelled = spelling.number(alloc, &self.keys.spellings, name)?;
        match spelled {
            Some(spelled) => Ok(self.first_of(spelling, limit, scope, spelled)),
            None => Ok(None),
        }
    }

    // The first of a name, from a scope outwards, of the first so many.
    fn called_outwards(
        &self,
        alloc: Global,
        spelling: Spelling,
        limit: usize,
        scope: usize,
        name: &[u8],
    ) -> Result<Option<DeclarationNo>, NoMemory>
        requires { scope < length self.now.scopes }
        ensures { IfOk result (λ r. r ≡ outwards (λ p. first_of (spelled_by spelling) (all_of self.now) limit p name.now) (path_at self.now.scopes scope)) }
    {
        let spelled = spelling.number(alloc, &self.keys.spellings, name)?;
        match spelled {
            Some(spelled) => Ok(self.outwards(spelling, limit, scope, spelled)),
            None => Ok(None),
        }
    }

    // The first of a name inside a declaration, of the first so many.
    fn first_inside(
        &self,
        alloc: Global,
        spelling: Spelling,
        limit: usize,
        number: DeclarationNo,
        name: &[u8],
    ) -> Result<Option<DeclarationNo>, NoMemory>
        requires { number < length (all_of self.now) }
        ensures { IfOk result (λ r. r ≡ first_inside (spelled_by spelling) (all_of self.now) limit number name.now) }
    {
        match self.inside_of(number) {
            Some(scope) => self.first_called(alloc, spelling, limit, scope, name),
            None => Ok(None),
        }
    }

    // From a declaration inwards.
    fn inwards(
        &self,
        alloc: Global,
        spelling: Spelling,
        limit: usize,
        number: DeclarationNo,
        parts: &[NamePart],
    ) -> Result<Option<DeclarationNo>, NoMemory>
        requires { number < length (all_of self.now) }
        ensures { IfOk result (λ r. r ≡ inwards (spelled_by spelling) (all_of self.now) limit number parts.now) }
    {
        let mut at = number;
        for part in parts {
            let inside = self.first_inside(alloc, spelling, limit, at, part.name.name.as_slice())?;
            match inside {
                None => return Ok(None),
                Some(next) => at = next,
            }
        }
        Ok(Some(at))
    }

    // Where a name begins.
    fn beginning(
        &self,
        alloc: Global,
        spelling: Spelling,
        limit: usize,
        number: DeclarationNo,
        name: &Name,
    ) -> Result<Option<DeclarationNo>, NoMemory>
        ensures { IfOk result (λ r. r ≡ beginning (spelled_by spelling) (all_of self.now) limit (at (all_of self.now) number).path (name_view name.now)) }
    {
        let first = name.first.name.as_slice();
        match name.leading {
            Some(_) => self.first_called(alloc, spelling, limit, self.scopes.root(), first),
            None => self.called_outwards(alloc, spelling, limit, self.scope(number), first),
        }
    }

    /// What a name means in the scope of a declaration, of the first so many declarations. As it
    /// is spelled it takes no memory.
    pub fn meaning(
        &self,
        alloc: Global,
        spelling: Spelling,
        limit: usize,
        number: DeclarationNo,
        name: &Name,
    ) -> Result<Option<DeclarationNo>, NoMemory>
        ensures meaning { IfOk result (λ r. r ≡ meaning (spelled_by spelling) (all_of self.now) limit (at (all_of self.now) number).path (name_view name.now)) }
        ensures there { IfOk result (λ r. IfSome r (λ n. n < length (all_of self.now))) }
    {
        let beginning = self.beginning(alloc, spelling, limit, number, name)?;
        match beginning {
            Some(first) => self.inwards(alloc, spelling, limit, first, &name.others),
            None => Ok(None),
        }
    }

    /// The definition of what is declared by a declaration.
    pub fn definition(&self, number: DeclarationNo) -> Option<DeclarationNo>
        ensures definition { number < length (all_of self.now) → result ≡ definition (all_of self.now) number }
    {
        match self.keys.exact.get(number.index()) {
            Some(key) => {
                let whole = Scoped {
                    scope: key.scope,
                    kind: Some(kind_of(self.what(number))),
                    spelling: key.spelling,
                };
                number_of(&self.firsts.wholes, whole)
            }
            None => None,
        }
    }

    /// The first declaration of the same name in the same scope.
    pub fn origin(&self, number: DeclarationNo) -> Option<DeclarationNo>
        ensures origin { number < length (all_of self.now) → result ≡ origin (all_of self.now) number }
    {
        match self.keys.exact.get(number.index()) {
            Some(key) => number_of(&self.firsts.exact, *key),
            None => None,
        }
    }

    /// The first declaration in the same scope whose name is the same but for case.
    pub fn first_alike(&self, number: DeclarationNo) -> Option<DeclarationNo>
        ensures first { number < length (all_of self.now) → result ≡ first lower (all_of self.now) (at (all_of self.now) number).path (at (all_of self.now) number).name }
    {
        match self.keys.small.get(number.index()) {
            Some(key) => number_of(&self.firsts.small, *key),
            None => None,
        }
    }
}
