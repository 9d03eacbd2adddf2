// What catalogs provide.
ghost use Rattle.std.specs.Prelude.{◌≡◌, map, false};
ghost use Rattle.std.specs.List.{slice_get};
ghost use Rattle.std.specs.Option.{option_map, unwrap_or};
ghost use Rattle.std.specs.Str.{bytes_eq};
ghost use Rattle.type_layout.specs.Scopes.{provided_in, full_name};

use crate::scopes::in_front;
use crate::{HomeNo, ScopeNo, Scopes};
use pss_base::Bytes;
use std::marker::Model;

/// A storage home that a catalog provides under a name.
#[derive(Drop)]
pub struct Provision {
    pub catalog: ScopeNo,
    pub name: Bytes,
    pub home: HomeNo,
}

/// What the catalogs of a schema provide, in their order.
#[derive(Drop)]
pub struct ProvidedList {
    scopes: Scopes,
    provisions: Vec<Provision>,
}

/// The catalogs among the modules that they stand in, and what they provide.
#[derive(Clone, Copy)]
pub struct ProvidedParts<'a> {
    pub scopes: &'a Scopes,
    pub provisions: &'a [Provision],
}

impl Model for ProvidedList {
    ghost use Rattle.std.specs.Prelude.{List, map};
    ghost use Rattle.type_layout.specs.Scopes.{Provided, provided_in};

    ghost Value = { List Provided };

    ghost view = { λ l. map (provided_in l.scopes) l.provisions.items };
}

impl ProvidedList {
    /// Provisions of catalogs that are among these scopes.
    pub fn new(scopes: Scopes, provisions: Vec<Provision>) -> ProvidedList
        ensures { result ≡ map (provided_in scopes) provisions.items }
    {
        ProvidedList { scopes, provisions }
    }

    /// The catalogs and their provisions by themselves.
    pub fn parts(&self) -> ProvidedParts<'_>
        ensures { self.now ≡ map (provided_in result.scopes.now) result.provisions.now }
    {
        ProvidedParts {
            scopes: &self.scopes,
            provisions: &self.provisions,
        }
    }

    /// Whether a word is the scoped name of a provision's catalog, a point, and the provision's name. False where there is no
    /// provision at the place.
    pub fn is_called(&self, place: usize, word: &[u8]) -> bool
        ensures { result ≡ unwrap_or (option_map (λ p. bytes_eq word.now (full_name p)) (slice_get self.now place)) false }
    {
        let Some(provision) = self.provisions.get(place) else {
            return false;
        };
        match in_front(word, b".", provision.name.as_slice()) {
            Some(catalog) => self.scopes.is_name(provision.catalog, catalog),
            None => false,
        }
    }

    /// The home that is provided at a place. None exactly where there is no provision at it.
    pub fn home(&self, place: usize) -> Option<HomeNo>
        ensures { result ≡ option_map (λ p. p.home) (slice_get self.now place) }
    {
        match self.provisions.get(place) {
            Some(provision) => Some(provision.home),
            None => None,
        }
    }
}
