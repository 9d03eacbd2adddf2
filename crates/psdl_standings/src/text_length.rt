// How many octets texts of the schema's shape have.
ghost use Rattle.std.specs.Prelude.{◌≡◌, ◌+◌, nat_lt, length};
ghost use Rattle.std.specs.Fmt.{decimal};
ghost use Rattle.psdl_standings.specs.TextLengths.{cut, length_of_string, length_of_sequence, length_of_array, with_name, with_number, with_field};

use pss_base::LONGEST_SHAPE;

// It stands for all lengths that are over the limit.
const TOO_LONG: u32 = LONGEST_SHAPE + 1;

// How many digits a number has.
fn digits(number: u128) -> u32
    ensures { result ≡ length (decimal number) }
{
    if number < 10 {
        1
    } else {
        digits(number / 10) + 1
    }
}

/// So many octets, and one over `LONGEST_SHAPE` for all that is over it.
#[derive(Clone, Copy)]
pub struct TextLength(u32);

impl TextLength {
    /// The length of this text.
    pub fn of(text: &[u8]) -> TextLength
        ensures { result.0 ≡ cut (length text.now) }
    {
        TextLength(0).with(text.len())
    }

    /// With so many octets more.
    pub fn with(self, octets: usize) -> TextLength
        ensures { result.0 ≡ cut (self.0 + octets) }
    {
        match u32::try_from(octets) {
            Ok(octets) => TextLength(self.0.saturating_add(octets).min(TOO_LONG)),
            Err(_) => TextLength(TOO_LONG),
        }
    }

    /// With what has this length behind it.
    pub fn followed_by(self, more: TextLength) -> TextLength
        ensures { result.0 ≡ cut (self.0 + more.0) }
    {
        self.with(more.0 as usize)
    }

    /// Whether there are more octets than a shape may have.
    pub fn is_over(self) -> bool
        ensures { result ≡ nat_lt 65536 self.0 }
    {
        self.0 >= TOO_LONG
    }

    /// The length of a string type's text. The bound is 0 where the type has none.
    pub(crate) fn of_string(bound: u128) -> TextLength
        ensures { result.0 ≡ length_of_string bound }
    {
        if bound == 0 {
            TextLength(6)
        } else {
            TextLength(8).with(digits(bound) as usize)
        }
    }

    /// The length of a sequence type's text, by that of its item type. The bound is 0 where the sequence has none.
    pub(crate) fn of_sequence(self, bound: u128) -> TextLength
        ensures { result.0 ≡ length_of_sequence self.0 bound }
    {
        if bound == 0 {
            self.with(5)
        } else {
            self.with(6 + digits(bound) as usize)
        }
    }

    /// The length of an array type's text, by that of its item type.
    pub(crate) fn of_array(self, count: u128) -> TextLength
        ensures { result.0 ≡ length_of_array self.0 count }
    {
        self.with(6 + digits(count) as usize)
    }

    /// With a name behind it, and what separates it from the next.
    pub fn with_name(self, name: &[u8]) -> TextLength
        ensures { result.0 ≡ with_name self.0 name.now }
    {
        self.with(name.len()).with(1)
    }

    /// With a number behind it, and what separates it from the next.
    pub fn with_number(self, number: u32) -> TextLength
        ensures { result.0 ≡ with_number self.0 number }
    {
        self.with(digits(u128::from(number)) as usize + 1)
    }

    /// With a field behind it, and what separates it from the next.
    pub(crate) fn with_field(self, name: &[u8], field_type: TextLength) -> TextLength
        ensures { result.0 ≡ with_field self.0 name.now field_type.0 }
    {
        self.with(name.len()).with(2).followed_by(field_type)
    }
}
