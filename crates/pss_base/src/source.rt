// A source of bytes that may fail, and the one over a reader of the system.
ghost use Rattle.std.specs.Prelude.{◌≡◌, ◌≢◌, List, ℕ, None, IsErr, IfErr, IfSome, MatchOption, is_err};
ghost use Rattle.std.specs.declared.option.Option.{Option};
ghost use Rattle.std.specs.Io.{ReadsAtMost};
ghost use Rattle.std.specs.IoError.{error_kind};
ghost use Rattle.std.specs.Io.KnownBytes.{ReadConsumes};
ghost use Rattle.pss_base.specs.Causes.{HasCause, counted};

use crate::Failed;
use std::io::{self, ErrorKind, Read};

/// How often a read is tried that the system interrupts each time.
const TRIES: u32 = u32::MAX;

/// Bytes that come in pieces. A read may fail; it may succeed again at the next call.
pub trait Source {
    /// The bytes still to come, where it tells them.
    ghost left: { Self → Option (List ℕ) };

    /// How often a read has failed, up to the last value of a u64.
    ghost faults: { Self → ℕ };

    /// Reads some first bytes of those to come into the front of the buffer, and answers how many. It answers 0
    /// for a buffer that is not empty only at the end. Where it failed, all bytes are still to come.
    fn read(&mut self, buf: &mut [u8]) -> Result<usize, Failed>
        ensures bound { ReadsAtMost result buf.new }
        ensures bytes { ReadConsumes (left self.old) (left self.new) result buf.new }
        ensures cause { HasCause (faults self.old) (faults self.new) result };
}

/// A reader of std as a source. It tells no bytes. A read that the system interrupts is tried again. Without a reader,
/// as for a file that could not be opened, each read fails.
#[derive(Drop)]
pub struct StdSource<R> {
    inner: Option<R>,
    faults: u64,
}

impl<R: Read + Drop> StdSource<R> {
    ghost use Rattle.pss_base.specs.Outside.{source_faults, reader_of};

    /// The source of a reader, or one that always fails.
    pub fn new(inner: Option<R>) -> StdSource<R>
        ensures faults { source_faults result ≡ 0 }
        ensures reader { reader_of result ≡ inner }
    {
        StdSource { inner, faults: 0 }
    }
}

impl<R: Read + Drop> Source for StdSource<R> {
    ghost use Rattle.pss_base.specs.Outside.{source_faults, reader_of};

    ghost left = { λ _. None };

    ghost faults = { source_faults };

    fn read(&mut self, buf: &mut [u8]) -> Result<usize, Failed>
        ensures bound { ReadsAtMost result buf.new }
        ensures bytes { ReadConsumes None None result buf.new }
        ensures cause { HasCause (source_faults self.old) (source_faults self.new) result }
        // The count rises at each failure, and stands still at its last value.
        ensures count { source_faults self.new ≡ counted (is_err result) (source_faults self.old) }
        // Without a reader it fails. Else it gives what the reader gives, where that tells its bytes.
        ensures given { MatchOption (reader_of self.old) (IsErr result) (λ old. IfSome (reader_of self.new) (λ new.
            ReadConsumes (R.remaining old) (R.remaining new) result buf.new)) }
    {
        if let Some(inner) = &mut self.inner {
            if let Ok(count) = read_again(inner, buf) {
                return Ok(count);
            }
        }
        self.faults = self.faults.saturating_add(1);
        Err(Failed)
    }
}

// Reads, and tries again where the system interrupted the read.
fn read_again<R: Read + Drop>(inner: &mut R, buf: &mut [u8]) -> io::Result<usize>
    ensures bound { ReadsAtMost result buf.new }
    ensures bytes { ReadConsumes (R.remaining inner.old) (R.remaining inner.new) result buf.new }
    ensures retried { IfErr result (λ e. error_kind e ≢ ErrorKind.Interrupted) }
{
    for _ in 0..TRIES {
        match inner.read(buf) {
            Err(error) if error.kind() == ErrorKind::Interrupted => {}
            result => return result,
        }
    }
    Err(ErrorKind::Other.into())
}
