//! Which object has a key: a finite map from key bytes to serials, and beside it a finite set of
//! reserved keys. What was reserved can be put without memory.
//!
//! A key of at most 24 bytes lies in its table, so that a look-up reads no other place for it; a longer one lies on the heap. A short
//! key is looked for behind the one found last before it is hashed: keys asked for in the order in which they were put stand there.
//!
//! Keys are bytes that strangers choose. A table hashes them by SipHash-1-3 under a key that is fixed and known, since a
//! secret one takes random bytes from the operating system, and that call can fail. It has groups of 12 places, one for at
//! most 9 keys on average, and their number is a power of two: 32,768 at 200,000 keys. So some 33,000 trials give a stranger
//! a key whose look-up begins at a chosen group. n such keys fill n/12 groups in a row, and a look-up of one of them passes
//! up to all of these: 16,667 at 200,000 keys. A key with a chosen hash of 32 bits takes 2^32 trials. Answers stay the same
//! whatever the keys are, and memory does not grow by it. `docs/DECISIONS.md` says why this is no ordered table.
#![tactic(auto)]

mod index;
mod short;
mod slots;

pub use index::KeyIndex;
