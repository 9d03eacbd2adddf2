// Masks of 64 bits, one for each number.
ghost use Rattle.std.specs.Prelude.{◌≡◌, ◌<◌, ◌==◌, ◌||◌, ◌&&◌, ℕ, length, OnOk};
ghost use Rattle.std.proofs.Common.{get_or};
ghost use Rattle.psdl_members.specs.inner.Bits.{has_bit};

use pss_base::NoMemory;

/// The mask of a number, 0 past the last.
pub fn mask_at(masks: &[u64], number: usize) -> u64
    ensures { result ≡ get_or masks.now number 0 }
{
    match masks.get(number) {
        Some(mask) => *mask,
        None => 0,
    }
}

fn with_bit(mask: u64, bit: usize) -> u64
    requires { bit < 64 }
    ensures { (k : ℕ) → k < 64 → has_bit result k ≡ (has_bit mask k || k == bit) }
{
    mask | 1 << bit
}

// There is a mask of a number.
fn make_place(masks: &mut Vec<u64>, number: usize) -> Result<(), NoMemory>
    ensures same { (n : ℕ) → get_or masks.new.items n 0 ≡ get_or masks.old.items n 0 }
    ensures place { OnOk result (number < length masks.new.items) }
{
    while masks.len() <= number {
        masks.push(0)?;
    }
    Ok(())
}

/// Sets a bit of the mask of a number.
pub(crate) fn add_bit(masks: &mut Vec<u64>, number: usize, bit: usize) -> Result<(), NoMemory>
    requires { bit < 64 }
    ensures { OnOk result ((n k : ℕ) → k < 64 → has_bit (get_or masks.new.items n 0) k ≡ (has_bit (get_or masks.old.items n 0) k || (n == number && k == bit))) }
{
    make_place(masks, number)?;
    let mask = with_bit(masks[number], bit);
    masks[number] = mask;
    Ok(())
}
