// What `DefaultHasher` computes, at less cost for a byte.
ghost use Rattle.std.specs.Prelude.{◌≡◌, ◌≤◌, ◌+◌, length, take, drop};
ghost use Rattle.std.specs.Hash.{le_bytes};
ghost use Rattle.std.specs.Hash.DefaultHasher as sip;
ghost use Rattle.table_hash.specs.Hashing.{plain, hashing, fed, fed_all, fed_number};

use std::hash::Hasher;

/// Hashes as `DefaultHasher` does, which is SipHash-1-3 with both keys 0. A slice of bytes is fed to a hasher byte by
/// byte, and each takes a few instructions here.
#[derive(Clone, Copy)]
pub struct ByteHasher {
    v0: u64,
    v1: u64,
    v2: u64,
    v3: u64,
    // The bytes since the last whole word, the first of them lowest.
    tail: u64,
    // How many bytes were written, modulo 2^64.
    length: u64,
}

impl ByteHasher {
    fn round(&mut self)
        ensures { self.new ≡ hashing (sip.round (plain self.old)) }
    {
        self.v0 = self.v0.wrapping_add(self.v1);
        self.v2 = self.v2.wrapping_add(self.v3);
        self.v1 = self.v1.rotate_left(13) ^ self.v0;
        self.v3 = self.v3.rotate_left(16) ^ self.v2;
        self.v0 = self.v0.rotate_left(32);
        self.v2 = self.v2.wrapping_add(self.v1);
        self.v0 = self.v0.wrapping_add(self.v3);
        self.v1 = self.v1.rotate_left(17) ^ self.v2;
        self.v3 = self.v3.rotate_left(21) ^ self.v0;
        self.v2 = self.v2.rotate_left(32);
    }

    fn write_word(&mut self, m: u64)
        ensures { self.new ≡ hashing (sip.write_word (plain self.old) m) }
    {
        self.v3 ^= m;
        self.round();
        self.v0 ^= m;
    }

    // It joins the tail, and a tail of eight bytes goes in as a word.
    #[inline(always)]
    fn write_byte(&mut self, b: u8)
        ensures { self.new ≡ fed self.old b }
    {
        self.tail |= (b as u64) << (8 * (self.length % 8));
        self.length = self.length.wrapping_add(1);
        if self.length % 8 == 0 {
            self.write_word(self.tail);
            self.tail = 0;
        }
    }

    // The word that the tail and the first bytes of i make goes in, and the last bytes of i are the tail.
    #[inline(always)]
    fn write_eight(&mut self, i: u64)
        ensures { self.new ≡ fed_number 8 self.old i }
    {
        let held = 8 * (self.length % 8);
        self.write_word(self.tail | i << held);
        self.tail = i >> 8 >> (56 - held);
        self.length = self.length.wrapping_add(8);
    }

    // Where the word has room for them all, its bytes wait in the tail.
    #[inline(always)]
    fn write_four(&mut self, i: u32)
        ensures { self.new ≡ fed_number 4 self.old i }
    {
        let held = 8 * (self.length % 8);
        let word = self.tail | (i as u64) << held;
        self.length = self.length.wrapping_add(4);
        if held < 32 {
            self.tail = word;
        } else {
            self.write_word(word);
            self.tail = (i as u64) >> (64 - held);
        }
    }
}

#[inline(always)]
fn number_at(bytes: &[u8], at: usize) -> u64
    requires { at + 8 ≤ length bytes.now }
    ensures { le_bytes 8 result ≡ take 8 (drop at bytes.now) }
{
    u64::from_le_bytes([
        bytes[at],
        bytes[at + 1],
        bytes[at + 2],
        bytes[at + 3],
        bytes[at + 4],
        bytes[at + 5],
        bytes[at + 6],
        bytes[at + 7],
    ])
}

impl Default for ByteHasher {
    ghost is_default = { λ s. s ≡ hashing sip.initial };

    fn default() -> ByteHasher {
        ByteHasher {
            v0: 0x736f_6d65_7073_6575,
            v1: 0x646f_7261_6e64_6f6d,
            v2: 0x6c79_6765_6e65_7261,
            v3: 0x7465_6462_7974_6573,
            tail: 0,
            length: 0,
        }
    }
}

impl Hasher for ByteHasher {
    ghost write = { fed_all };

    ghost finish = { λ s. sip.finish (plain s) };

    #[inline(always)]
    fn write(&mut self, bytes: &[u8]) {
        let mut at = 0;
        while bytes.len() - at >= 8 {
            self.write_eight(number_at(bytes, at));
            at += 8;
        }
        for i in at..bytes.len() {
            self.write_byte(bytes[i]);
        }
    }

    #[inline(always)]
    fn write_u8(&mut self, i: u8) {
        self.write_byte(i);
    }

    #[inline(always)]
    fn write_u32(&mut self, i: u32) {
        self.write_four(i);
    }

    #[inline(always)]
    fn write_u64(&mut self, i: u64) {
        self.write_eight(i);
    }

    #[inline(always)]
    fn write_usize(&mut self, i: usize) {
        self.write_eight(i as u64);
    }

    fn finish(&self) -> u64 {
        let mut s = *self;
        s.write_word((self.length & 0xFF) << 56 | self.tail);
        s.v2 ^= 0xFF;
        s.round();
        s.round();
        s.round();
        s.v0 ^ s.v1 ^ s.v2 ^ s.v3
    }
}
