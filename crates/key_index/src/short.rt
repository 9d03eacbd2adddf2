// Keys of a few bytes, which lie in their table.
ghost use Rattle.std.specs.Prelude.{◌≡◌, ◌∷◌, [], true, false, IfSome, OnSome, IfNone};
ghost use Rattle.std.proofs.Common.{ap};
ghost use Rattle.std.specs.Cmp.{partial_equiv_from_equiv};
ghost use Rattle.std.specs.Cmp.Lexicographic.{nat_list_eq_equiv, bytes_decides};
ghost use Rattle.std.specs.Str.{bytes_eq};
ghost use Rattle.key_index.specs.Slots.{is_short};

use arrayvec::ArrayVec;
use std::hash::{Hash, Hasher};
use std::marker::Model;

/// The most bytes of a short key.
const LONGEST: usize = 24;

/// A short key. Contracts see its bytes.
#[derive(Drop)]
pub struct ShortKey {
    bytes: ArrayVec<u8, LONGEST>,
}

impl Model for ShortKey {
    ghost use Rattle.std.specs.Prelude.{List, ℕ};

    ghost Value = { List ℕ };

    ghost view = { λ k. k.bytes.items };
}

/// The key with these bytes, where it is short.
pub fn short_of(key: &[u8]) -> Option<ShortKey>
    ensures bytes { IfSome result (λ short. short ≡ key.now) }
    ensures some { OnSome result (is_short key.now ≡ true) }
    ensures none { IfNone result (is_short key.now ≡ false) }
{
    if key.len() > LONGEST {
        return None;
    }
    let mut bytes = ArrayVec::new();
    match bytes.try_extend_from_slice(key) {
        Ok(()) => Some(ShortKey { bytes }),
        Err(_) => None,
    }
}

impl PartialEq for ShortKey {
    ghost eq = { bytes_eq };

    ghost laws = { partial_equiv_from_equiv nat_list_eq_equiv };

    fn eq(&self, other: &ShortKey) -> bool {
        self.bytes == other.bytes
    }
}

impl Eq for ShortKey {
    ghost laws = { nat_list_eq_equiv };
}

// One write of all bytes: a table hashes a key often.
impl Hash for ShortKey {
    ghost hash_input = { λ k. k ∷ [] };

    ghost respects_eq = { λ x y same. ap (λ k. k ∷ []) ((bytes_decides x y).0 same) };

    fn hash<H: Hasher>(&self, state: &mut H) {
        state.write(self.bytes.as_slice());
    }
}
