// The standard streams, some of which may have been closed when the program was started.
use std::os::fd::{AsRawFd, IntoRawFd, RawFd};
use std::{fs, io};

/// It is opened to be read: nothing comes from it, and writing to it fails.
const NULL_DEVICE: &str = "/dev/null";

const STANDARD_INPUT: RawFd = 0;

const LAST_STREAM: RawFd = 2;

/// Puts the null device in the place of each standard stream that is closed. The system gives the lowest number that is
/// free: a file that was opened later would take the stream's, and what is spoken would be written into it.
///
/// Answers whether standard input was open. Where standard output was closed, each write to it fails from now on.
/// Where the null device cannot be opened, no stream may be used.
pub fn fill_streams(rt: &HostRuntime) -> io::Result<bool> {
    let mut has_input = true;
    for _ in 0..=LAST_STREAM + 1 {
        let null = fs::open(rt, NULL_DEVICE)?;
        if null.as_raw_fd() > LAST_STREAM {
            break;
        }
        // It stays open from here to the end of the program.
        if null.into_raw_fd() == STANDARD_INPUT {
            has_input = false;
        }
    }
    Ok(has_input)
}
