// What catalogs provide, by the hashes of the words that name it.
ghost use Rattle.std.specs.Prelude.{codes, ℕ, ◌≡◌, ◌<◌, List, IfOk, IfSome, OnOk, map, length, take, find, position, eqb};
ghost use Rattle.std.specs.Map.{lookup};
ghost use Rattle.std.specs.Option.{option_map};
ghost use Rattle.table_hash.specs.Hashing.{fed_all};
ghost use Rattle.type_layout.specs.Scopes.{behind, name_at, full_name, provided_in};
ghost use Rattle.schema_names.specs.inner.Hashed as hashed;
ghost use Rattle.schema_names.specs.inner.Hashed.{AreFound, AreStates, IsPut, is_called_at, is_called, state_of, under};

use indexmap::IndexMap;
use pss_base::NoMemory;
use std::alloc::Global;
use std::hash::{BuildHasherDefault, Hasher};
use table_hash::{ByteHasher, NumberHasher};
use type_layout::{ProvidedList, Provision, ScopeNo, ScopeView, Scopes};

/// The places of provisions by the hashes of what they are called. The others are those whose hash an earlier one has, which is
/// rare.
#[derive(Drop)]
pub(crate) struct ProvidedPlaces {
    firsts: IndexMap<u64, usize, BuildHasherDefault<NumberHasher>>,
    others: Vec<usize>,
}

// The state in which a scope's name is hashed, by that of the scope round it.
fn state_in(states: &[ByteHasher], scope: ScopeView<'_>) -> ByteHasher
    requires { IfSome scope.outer (λ outer. outer.0 < length states.now) }
    ensures { (names : List (List ℕ)) → AreStates names states.now → result ≡ state_of (behind (option_map (name_at names) scope.entry.outer) scope.entry.name.now) }
{
    let mut state = match scope.outer {
        Some(outer) => inside(states[outer.0]),
        None => ByteHasher::default(),
    };
    state.write(scope.name);
    state
}

// The state behind a name and `::`.
fn inside(outer: ByteHasher) -> ByteHasher
    ensures { result ≡ fed_all outer (codes "::") }
{
    let mut state = outer;
    state.write(b"::");
    state
}

// The state in which the name of the scope with this number is hashed, by those of all before it.
fn next_state(states: &[ByteHasher], scopes: &Scopes, number: ScopeNo) -> ByteHasher
    requires there { number.0 < length scopes.now }
    requires before { states.now ≡ map state_of (take number.0 scopes.now) }
    ensures { result ≡ state_of (name_at scopes.now number) }
{
    match scopes.get(number) {
        Some(scope) => state_in(states, scope),
        None => ByteHasher::default(),
    }
}

// The states in which the names of all scopes are hashed. Each takes the own name alone.
fn states_of(alloc: Global, scopes: &Scopes) -> Result<Vec<ByteHasher>, NoMemory>
    ensures { IfOk result (λ states. states.items ≡ map state_of scopes.now) }
{
    let mut states = Vec::new(alloc);
    for index in 0..scopes.len() {
        let state = next_state(&states, scopes, ScopeNo(index));
        states.push(state)?;
    }
    Ok(states)
}

// The state in which the name of a scope is hashed.
fn state_at(states: &[ByteHasher], number: ScopeNo) -> ByteHasher
    ensures { (names : List (List ℕ)) → states.now ≡ map state_of names → result ≡ state_of (name_at names number) }
{
    match states.get(number.0) {
        Some(state) => *state,
        None => ByteHasher::default(),
    }
}

// The hash of what a provision is called.
fn hash_of(states: &[ByteHasher], provision: &Provision) -> u64
    ensures { (names : List (List ℕ)) → states.now ≡ map state_of names → result ≡ hashed.hash_of (full_name (provided_in names provision.now)) }
{
    let mut state = state_at(states, provision.catalog);
    state.write(b".");
    state.write(provision.name.as_slice());
    state.finish()
}

// The hash of a word.
fn hash_of_word(word: &[u8]) -> u64
    ensures { result ≡ hashed.hash_of word.now }
{
    let mut state = ByteHasher::default();
    state.write(word);
    state.finish()
}

// A place under its hash, or with the others.
fn put(places: &mut ProvidedPlaces, hash: u64, place: usize) -> Result<(), NoMemory>
    ensures { OnOk result (IsPut places.old.firsts.entries places.new.firsts.entries places.old.others.items places.new.others.items hash place) }
{
    if places.firsts.contains_key(&hash) {
        places.others.push(place)?;
    } else {
        places.firsts.insert(hash, place)?;
    }
    Ok(())
}

/// The places of all provisions.
pub(crate) fn places_of(alloc: Global, list: &ProvidedList) -> Result<ProvidedPlaces, NoMemory>
    ensures { IfOk result (λ places. AreFound (length list.now) list.now places.firsts.entries places.others.items) }
{
    let parts = list.parts();
    let states = states_of(alloc, parts.scopes)?;
    let mut places = ProvidedPlaces {
        firsts: IndexMap::with_hasher(alloc, BuildHasherDefault::new()),
        others: Vec::new(alloc),
    };
    for place in 0..parts.provisions.len() {
        put(
            &mut places,
            hash_of(&states, &parts.provisions[place]),
            place,
        )?;
    }
    Ok(places)
}

// The place under a word's hash, where the provision there is called so.
fn place_under(places: &ProvidedPlaces, list: &ProvidedList, word: &[u8]) -> Option<usize>
    ensures { result ≡ under list.now word.now (lookup (eqb (hashed.hash_of word.now)) places.now.firsts.entries) }
{
    match places.firsts.get(&hash_of_word(word)) {
        Some(place) if list.is_called(*place, word) => Some(*place),
        _ => None,
    }
}

// The first of these places whose provision is called so.
fn place_among(places: &[usize], list: &ProvidedList, word: &[u8]) -> Option<usize>
    ensures { result ≡ find (is_called_at list.now word.now) places.now }
{
    for i in 0..places.len() {
        if list.is_called(places[i], word) {
            return Some(places[i]);
        }
    }
    None
}

/// The place of the first provision that a word names, by a table of all places.
pub(crate) fn place_of(places: &ProvidedPlaces, list: &ProvidedList, word: &[u8]) -> Option<usize>
    requires { AreFound (length list.now) list.now places.now.firsts.entries places.now.others.items }
    ensures { result ≡ position (is_called word.now) list.now }
{
    match place_under(places, list, word) {
        Some(place) => Some(place),
        None => place_among(&places.others, list, word),
    }
}

/// The place of the first provision that a word names, by a walk.
pub(crate) fn first_called(list: &ProvidedList, word: &[u8]) -> Option<usize>
    ensures { result ≡ position (is_called word.now) list.now }
{
    for place in 0..list.parts().provisions.len() {
        if list.is_called(place, word) {
            return Some(place);
        }
    }
    None
}
