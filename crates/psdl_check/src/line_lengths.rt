// How many octets the lines of the schema's shape have.
ghost use Rattle.std.specs.Prelude.{◌≡◌, map};
ghost use Rattle.type_layout.specs.Types.{RefTo};
ghost use Rattle.psdl_standings.specs.TextLengths.{text_length};
ghost use Rattle.psdl_check.specs.inner.LineLengths.{numbers_length, length_of_member, length_of_home, length_of_key};

use psdl_standings::TextLength;
use type_layout::HomeNo;

// With the numbers of homes behind what stands in front, each with what separates it from the next.
fn with_homes(homes: &[HomeNo], front: TextLength) -> TextLength
    ensures { result.0 ≡ numbers_length front.0 (map (λ h. h.0) homes.now) }
{
    let mut whole = front;
    for home in homes {
        whole = whole.with_number(home.0);
    }
    whole
}

/// How long the text of a type of references to these homes is.
pub(crate) fn reference_length(homes: &[HomeNo]) -> TextLength
    ensures { result.0 ≡ text_length (RefTo homes.now) }
{
    if homes.is_empty() {
        return TextLength::of(b"ref()");
    }
    with_homes(homes, TextLength::of(b"ref("))
}

/// How long a member's line is, by the member's name and the length of its type.
pub(crate) fn member_line_length(name: &[u8], member_type: TextLength) -> TextLength
    ensures { result.0 ≡ length_of_member name.now member_type.0 }
{
    member_type.with(name.len()).with(9)
}

/// How long a home's line is, by the home's number, that of its base or 0, and its name.
pub(crate) fn home_line_length(number: u32, base: u32, name: &[u8]) -> TextLength
    ensures { result.0 ≡ length_of_home number base name.now }
{
    TextLength::of(b"home ")
        .with_number(number)
        .with_number(base)
        .with_name(name)
}

// With numbers behind what stands in front, each with what separates it from the next.
fn with_numbers(numbers: &[u32], front: TextLength) -> TextLength
    ensures { result.0 ≡ numbers_length front.0 numbers.now }
{
    let mut whole = front;
    for number in numbers {
        whole = whole.with_number(*number);
    }
    whole
}

/// How long a key's line is, by the key's name, the number of its home and those of its members.
pub(crate) fn key_line_length(name: &[u8], home: HomeNo, members: &[u32]) -> TextLength
    ensures { result.0 ≡ length_of_key name.now home.0 members.now }
{
    let front = TextLength::of(b"key ").with_name(name).with_number(home.0);
    if members.is_empty() {
        front.with(1)
    } else {
        with_numbers(members, front)
    }
}
