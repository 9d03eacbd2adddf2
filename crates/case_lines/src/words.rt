// The words of a line, numbers and octets.
use pss_base::{Bytes, NoMemory, hex_digit, hex_value};
use std::alloc::Global;
use std::str::from_utf8;

/// The first word of a line, and what is behind the space after it.
pub fn split_word(line: &[u8]) -> (&[u8], &[u8]) {
    match line.iter().position(|byte| *byte == b' ') {
        Some(at) => (&line[..at], &line[at + 1..]),
        None => (line, &[]),
    }
}

/// The number of a word of decimal digits, up to 2^64 - 1.
pub fn number_of(word: &[u8]) -> Option<u64> {
    from_utf8(word).ok()?.parse::<u64>().ok()
}

/// The number of a word of decimal digits, up to 2^32 - 1.
pub fn short_number_of(word: &[u8]) -> Option<u32> {
    u32::try_from(number_of(word)?).ok()
}

/// The octets that the digits stand for, up to the first pair that is none.
pub fn octets_of(alloc: Global, digits: &[u8]) -> Result<Bytes, NoMemory> {
    let mut octets = Bytes::new(alloc);
    for pair in digits.chunks_exact(2) {
        let (Some(high), Some(low)) = (hex_value(pair[0]), hex_value(pair[1])) else {
            return Ok(octets);
        };
        octets.push(high * 16 + low)?;
    }
    Ok(octets)
}

/// Puts the digits of octets behind what is there, two for each.
pub fn append_octets(out: &mut Bytes, octets: &[u8]) -> Result<(), NoMemory> {
    for octet in octets {
        out.push(hex_digit(*octet / 16))?;
        out.push(hex_digit(*octet % 16))?;
    }
    Ok(())
}
