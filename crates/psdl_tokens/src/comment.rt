// Comments in the texts of schemas.
ghost use Rattle.std.specs.Prelude.{◌≡◌, ◌≤◌, length, IfSome};
ghost use Rattle.psdl_tokens.specs.Comments.{closing, line_len};

use crate::alphabet::byte_at;

/// How many bytes there are up to the first `*/` and with it.
pub(crate) fn closing(rest: &[u8]) -> Option<usize>
    ensures size { result ≡ closing rest.now }
    ensures within { IfSome result (λ size. size ≤ length rest.now) }
{
    for (i, byte) in rest.iter().enumerate() {
        if *byte == b'*' && byte_at(rest, i + 1) == b'/' {
            return Some(i + 2);
        }
    }
    None
}

/// How many bytes there are up to the end of the line.
pub(crate) fn line_len(rest: &[u8]) -> usize
    ensures len { result ≡ line_len rest.now }
    ensures within { result ≤ length rest.now }
{
    rest.iter().take_while(|byte| **byte != b'\n').count()
}
