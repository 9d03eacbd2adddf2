// What is left of a line.
ghost use Rattle.std.specs.Prelude.{◌+◌, ◌≤◌, length};

/// What is left of a line of at most 65,536 bytes.
#[derive(Clone, Copy)]
pub struct Tail<'a> {
    /// The column at which it begins, from 1.
    pub column: u32,
    pub text: &'a [u8],
    ghost fits: { column + length text.now ≤ 65537 },
}
