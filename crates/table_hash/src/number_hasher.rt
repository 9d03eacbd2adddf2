// A hash by multiplication.
ghost use Rattle.std.specs.Prelude.{◌≡◌};
ghost use Rattle.table_hash.specs.Numbers as numbers;

use std::hash::Hasher;

const MULTIPLIER: u64 = 0x9e37_79b9_7f4a_7c15;

/// Hashes by one multiplication for each number. Which keys have one hash is plain to see, so it is for keys that no
/// stranger chooses, or for tables of few.
#[derive(Clone, Copy)]
pub struct NumberHasher {
    state: u64,
}

#[inline(always)]
fn shifted(word: u64, byte: u8) -> u64
    ensures { result ≡ numbers.shifted word byte }
{
    word >> 8 | (byte as u64) << 56
}

#[inline(always)]
fn word_of(bytes: &[u8]) -> u64
    ensures { result ≡ numbers.word_of bytes.now }
{
    let mut word: u64 = 0;
    for i in 0..bytes.len() {
        word = shifted(word, bytes[i]);
    }
    word
}

// `IndexMap` itself joins the halves of a hash, so they are not joined here: twice would leave the low half alone.
#[inline(always)]
fn mixed(state: u64, word: u64) -> u64
    ensures { result ≡ numbers.mixed state word }
{
    (state ^ word).wrapping_mul(MULTIPLIER)
}

impl Default for NumberHasher {
    ghost is_default = { λ s. s ≡ numbers.initial };

    fn default() -> NumberHasher {
        NumberHasher {
            state: 0x243f_6a88_85a3_08d3,
        }
    }
}

impl Hasher for NumberHasher {
    ghost write = { numbers.fed };

    ghost finish = { λ s. s.state };

    #[inline(always)]
    fn write(&mut self, bytes: &[u8]) {
        self.state = mixed(self.state, word_of(bytes));
    }

    // The word that its four bytes make has them in its high half.
    #[inline(always)]
    fn write_u32(&mut self, i: u32) {
        self.state = mixed(self.state, (i as u64) << 32);
    }

    // The word that its eight bytes make is the number.
    #[inline(always)]
    fn write_u64(&mut self, i: u64) {
        self.state = mixed(self.state, i);
    }

    #[inline(always)]
    fn write_usize(&mut self, i: usize) {
        self.state = mixed(self.state, i as u64);
    }

    #[inline(always)]
    fn finish(&self) -> u64 {
        self.state
    }
}
