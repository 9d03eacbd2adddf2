// The station of the system: a file and a writer. It tells nothing but its counts.
ghost use Rattle.std.specs.Prelude.{◌≡◌, ◌+◌, ◌≤◌, ℕ, [], None, IsErr, IsNone, OnOk, OnErr, is_err, length, take};
ghost use Rattle.std.specs.Io.KnownBytes.{Appends};
ghost use Rattle.pss_base.specs.Causes.{HasCause, counted};
ghost use Rattle.pss_disk.specs.Moments.{spoke, wrote};
ghost use Rattle.pss_disk.specs.Octets.{disk_end, range_of};

use crate::station::Station;
use pss_base::Failed;
use std::fs::OpenFile;
use std::io;
use std::io::{ErrorKind, Write};
use std::os::unix::fs::FileExt;

/// A file as disk and a writer of std as speech. It tells no moment; that the system keeps what it is given is the
/// premise of those who use it. Without a file, as for one that could not be opened, each call of the disk fails.
#[derive(Drop)]
pub struct RealStation<F, O> {
    file: Option<F>,
    out: O,
    disk_faults: u64,
    speak_faults: u64,
}

impl<F: FileExt + OpenFile + Drop, O: Write + Drop> RealStation<F, O> {
    ghost use Rattle.pss_disk.specs.Outside.{file_faults, file_of, speech_faults, writer_of};

    /// The station of a file, or of none, and a writer.
    pub fn new(file: Option<F>, out: O) -> RealStation<F, O>
        ensures disk { file_faults result ≡ 0 }
        ensures speech { speech_faults result ≡ 0 }
        ensures file { file_of result ≡ file }
        ensures writer { writer_of result ≡ out }
    {
        RealStation {
            file,
            out,
            disk_faults: 0,
            speak_faults: 0,
        }
    }
}

// Fills a buffer from a place of a file on. Past the file's end it is filled with zero octets.
fn read_all_at<F: FileExt>(file: &F, at: u64, buf: &mut [u8]) -> Result<(), Failed>
    requires { at + length buf.old ≤ disk_end }
{
    let mut filled = 0;
    for _ in 0..u64::MAX {
        if filled >= buf.len() {
            return Ok(());
        }
        match file.read_at(&mut buf[filled..], at + filled as u64) {
            Ok(0) => {
                buf[filled..].fill(0);
                return Ok(());
            }
            Ok(count) => filled += count,
            Err(error) if error.kind() == ErrorKind::Interrupted => {}
            Err(_) => return Err(Failed),
        }
    }
    Err(Failed)
}

// Makes sure of a file's octets and of its length.
fn sync_file<F: OpenFile>(file: &F) -> Result<(), Failed> {
    for _ in 0..u64::MAX {
        match file.sync_data() {
            Ok(()) => return Ok(()),
            Err(error) if error.kind() == ErrorKind::Interrupted => {}
            Err(_) => return Err(Failed),
        }
    }
    Err(Failed)
}

// Writes bytes until none is left or the writer fails, and answers how many were written.
#[inline(never)]
fn write_front<O: Write>(out: &mut O, bytes: &[u8]) -> usize
    ensures bound { result ≤ length bytes.now }
    ensures written { Appends (O.contents out.old) (O.contents out.new) (take result bytes.now) }
{
    let mut count = 0;
    for _ in 0..u64::MAX {
        if count >= bytes.len() {
            return count;
        }
        match out.write(&bytes[count..]) {
            Ok(0) => return count,
            Ok(more) => count += more,
            Err(error) if error.kind() == ErrorKind::Interrupted => {}
            Err(_) => return count,
        }
    }
    count
}

// The same. Most writers take all at once.
#[inline(always)]
fn write_bytes<O: Write>(out: &mut O, bytes: &[u8]) -> usize
    ensures bound { result ≤ length bytes.now }
    ensures written { Appends (O.contents out.old) (O.contents out.new) (take result bytes.now) }
{
    match out.write(bytes) {
        Ok(count) if count == bytes.len() => count,
        Ok(0) => 0,
        Ok(count) => count + write_front(out, &bytes[count..]),
        Err(error) if error.kind() == ErrorKind::Interrupted => write_front(out, bytes),
        Err(_) => 0,
    }
}

impl<F: FileExt + OpenFile + Drop, O: Write + Drop> Station for RealStation<F, O> {
    ghost use Rattle.pss_disk.specs.Outside.{file_faults, file_of, speech_faults, writer_of};
    ghost use Rattle.pss_disk.specs.inner.Told.{tells_nothing};

    ghost now = { λ _. record { spoken = None; disk = None } };

    ghost history = { λ _. [] };

    ghost content = { λ _. None };

    ghost disk_faults = { file_faults };

    ghost speak_faults = { speech_faults };

    ghost last_is_now = { λ s told. tells_nothing told };

    ghost content_is_image = { λ s. tt };

    fn len(&mut self) -> Result<u64, Failed>
        ensures cause { HasCause (file_faults self.old) (file_faults self.new) result }
        ensures other { speech_faults self.new ≡ speech_faults self.old }
        // The count rises at each failure, and stands still at its last value.
        ensures count { file_faults self.new ≡ counted (is_err result) (file_faults self.old) }
        ensures none { IsNone (file_of self.old) → IsErr result }
        // A call of the disk leaves the writer as it was, and no call changes the file that is the disk.
        ensures file { file_of self.new ≡ file_of self.old }
        ensures writer { writer_of self.new ≡ writer_of self.old }
    {
        if let Some(file) = &self.file {
            if let Ok(metadata) = file.metadata() {
                return Ok(metadata.len());
            }
        }
        self.disk_faults = self.disk_faults.saturating_add(1);
        Err(Failed)
    }

    fn read_at(&mut self, at: u64, buf: &mut [u8]) -> Result<(), Failed>
        requires within { at + length buf.old ≤ disk_end }
        ensures cause { HasCause (file_faults self.old) (file_faults self.new) result }
        ensures other { speech_faults self.new ≡ speech_faults self.old }
        ensures count { file_faults self.new ≡ counted (is_err result) (file_faults self.old) }
        ensures none { IsNone (file_of self.old) → IsErr result }
        ensures file { file_of self.new ≡ file_of self.old }
        ensures writer { writer_of self.new ≡ writer_of self.old }
    {
        if let Some(file) = &self.file {
            if read_all_at(file, at, buf).is_ok() {
                return Ok(());
            }
        }
        self.disk_faults = self.disk_faults.saturating_add(1);
        Err(Failed)
    }

    fn write_at(&mut self, at: u64, bytes: &[u8]) -> Result<(), Failed>
        requires within { at + length bytes.now ≤ disk_end }
        ensures now { OnOk result (record { spoken = None; disk = None } ≡ wrote (range_of at bytes.now) (record { spoken = None; disk = None })) }
        ensures cause { HasCause (file_faults self.old) (file_faults self.new) result }
        ensures other { speech_faults self.new ≡ speech_faults self.old }
        ensures count { file_faults self.new ≡ counted (is_err result) (file_faults self.old) }
        ensures none { IsNone (file_of self.old) → IsErr result }
        ensures file { file_of self.new ≡ file_of self.old }
        ensures writer { writer_of self.new ≡ writer_of self.old }
    {
        if let Some(file) = &self.file {
            if file.write_all_at(bytes, at).is_ok() {
                return Ok(());
            }
        }
        self.disk_faults = self.disk_faults.saturating_add(1);
        Err(Failed)
    }

    fn sync(&mut self) -> Result<(), Failed>
        ensures cause { HasCause (file_faults self.old) (file_faults self.new) result }
        ensures other { speech_faults self.new ≡ speech_faults self.old }
        ensures count { file_faults self.new ≡ counted (is_err result) (file_faults self.old) }
        ensures none { IsNone (file_of self.old) → IsErr result }
        ensures file { file_of self.new ≡ file_of self.old }
        ensures writer { writer_of self.new ≡ writer_of self.old }
    {
        if let Some(file) = &self.file {
            if sync_file(file).is_ok() {
                return Ok(());
            }
        }
        self.disk_faults = self.disk_faults.saturating_add(1);
        Err(Failed)
    }

    #[inline(always)]
    fn speak(&mut self, bytes: &[u8]) -> Result<(), Failed>
        ensures spoken { OnOk result (spoke bytes.now (record { spoken = None; disk = None }) ≡ record { spoken = None; disk = None }) }
        ensures cause { HasCause (speech_faults self.old) (speech_faults self.new) result }
        ensures other { file_faults self.new ≡ file_faults self.old }
        // A writer that tells its bytes has these behind them; where the call fails, some first ones and no others.
        ensures written { OnOk result (Appends (O.contents (writer_of self.old)) (O.contents (writer_of self.new)) bytes.now) }
        ensures part { OnErr result ((k : ℕ) × Appends (O.contents (writer_of self.old)) (O.contents (writer_of self.new)) (take k bytes.now)) }
        ensures count { speech_faults self.new ≡ counted (is_err result) (speech_faults self.old) }
        ensures file { file_of self.new ≡ file_of self.old }
    {
        let count = write_bytes(&mut self.out, bytes);
        if count == bytes.len() && self.out.flush().is_ok() {
            return Ok(());
        }
        self.speak_faults = self.speak_faults.saturating_add(1);
        Err(Failed)
    }
}
