// A station in memory, which keeps a record of all calls.
ghost use Rattle.std.specs.Prelude.{◌≡◌, [], ◌+◌, ◌<◌, ◌≤◌, length, Some, OnOk, OnErr, IfOk, IfSome, IsErr, IsFalse, IsTrue, slice_get};
ghost use Rattle.pss_base.specs.Causes.{HasCause};
ghost use Rattle.pss_base.specs.Feed.{is_listed};
ghost use Rattle.pss_disk.specs.Moments.{Through, IsStill, DuringSpeak, DuringWrite, DuringSync, IsImage, spoke, wrote, synced};
ghost use Rattle.pss_disk.specs.Octets.{StaysOutside, disk_end, octets_in, range_of, write};
ghost use Rattle.pss_disk.specs.Tape.{FailedDisk, FailedSpeech, IsPicked, disk_failed, half, moments_of, now_of, recorded, speech_failed, state_at, state_of};

use crate::call::Call;
use crate::image::image_after;
use crate::record::{add, add_speech, add_write, give, half, is_in};
use crate::station::Station;
use pss_base::{Bytes, Failed, NoMemory};
use std::alloc::Global;
use std::marker::Model;

/// A disk of known octets and a speech that is kept, for tests of what happens when a call fails.
#[derive(Drop)]
pub struct MemStation {
    alloc: Global,
    first: Vec<u8>,
    calls: Vec<Call>,
    bytes: Vec<u8>,
    said: Vec<u8>,
    fail: Vec<u32>,
    disk_faults: u64,
    speak_faults: u64,
}

impl Model for MemStation {
    ghost use Rattle.std.specs.Prelude.{◌≡◌, ◌<◌, ◌^◌, length};
    ghost use Rattle.pss_disk.specs.Tape.{Tape, after_all, start};

    ghost Value = { Tape };

    ghost view = { λ s. record { first = s.first.items; calls = s.calls.items; failing = s.fail.items; disk_faults = s.disk_faults; speak_faults = s.speak_faults } };

    ghost invariant = { λ s. ((after_all (start s.first.items) s.calls.items).content ≡ s.bytes.items) × ((after_all (start s.first.items) s.calls.items).spoken ≡ s.said.items) × (length s.calls.items < 2 ^ 32) };
}

impl MemStation {
    /// A station whose disk has these octets. The calls whose numbers, from 0, stand in `fail` answer `Failed`: of speech
    /// and of a write the first half of the bytes comes.
    pub fn new(alloc: Global, bytes: &[u8], fail: &[u32]) -> Result<MemStation, NoMemory>
        ensures { IfOk result (λ station. station ≡ record { first = bytes.now; calls = []; failing = fail.now; disk_faults = 0; speak_faults = 0 }) }
    {
        Ok(MemStation {
            alloc,
            first: bytes.to_vec(alloc)?,
            calls: Vec::new(alloc),
            bytes: bytes.to_vec(alloc)?,
            said: Vec::new(alloc),
            fail: fail.to_vec(alloc)?,
            disk_faults: 0,
            speak_faults: 0,
        })
    }

    /// The octets that a read of the disk gives.
    pub fn bytes(&self) -> &[u8]
        ensures { result.now ≡ (state_of self.now).content }
    {
        &self.bytes
    }

    /// All that was spoken.
    pub fn spoken(&self) -> &[u8]
        ensures { result.now ≡ (state_of self.now).spoken }
    {
        &self.said
    }

    /// How many calls were recorded.
    pub fn calls(&self) -> u32
        ensures { result ≡ length self.now.calls }
    {
        self.calls.len() as u32
    }

    /// An image that a crash may leave after the first `moment` calls. Pick 0 keeps no pending write, 1 keeps all of
    /// them. Any other pick gives the greatest length, with one octet wherever any may stand: 0xA5 for 2, 0x5A for 3,
    /// else the pick itself.
    pub fn crash(&self, moment: u32, pick: u8) -> Result<Bytes, NoMemory>
        requires { moment ≤ length self.now.calls }
        ensures picked { IfOk result (IsPicked pick (state_at moment self.now)) }
        ensures image { IfOk result (λ image. IfSome (slice_get (moments_of self.now) moment) (λ m. IfSome m.disk (λ disk. IsImage disk image))) }
    {
        image_after(
            self.alloc,
            &self.first,
            &self.calls[..moment as usize],
            pick,
        )
    }

    // Whether the next call is to fail.
    fn is_listed(&self) -> bool
        ensures { result ≡ is_listed (length self.now.calls) self.now.failing }
    {
        is_in(&self.fail, self.calls.len())
    }

    // Records a call that does nothing.
    #[tactic(auto, using(crate::proofs::Calls::one_more_call))]
    fn note_quiet(&mut self) -> Result<(), NoMemory>
        ensures ok { OnOk result (self.new ≡ recorded Call.Quiet self.old) }
        ensures err { OnErr result (self.new ≡ self.old) }
    {
        add(&mut self.calls, Call::Quiet)?;
        Ok(())
    }

    // Records a sync.
    #[tactic(auto, using(crate::proofs::Calls::one_more_call))]
    fn note_sync(&mut self) -> Result<(), NoMemory>
        ensures ok { OnOk result (self.new ≡ recorded Call.Synced self.old) }
        ensures err { OnErr result (self.new ≡ self.old) }
    {
        add(&mut self.calls, Call::Synced)?;
        Ok(())
    }

    // Records speech.
    #[tactic(auto, using(crate::proofs::Calls::one_more_call))]
    fn note_speech(&mut self, bytes: &[u8]) -> Result<(), NoMemory>
        ensures ok { OnOk result (self.new ≡ recorded (Call.Spoke bytes.now) self.old) }
        ensures err { OnErr result (self.new ≡ self.old) }
    {
        add_speech(self.alloc, &mut self.calls, &mut self.said, bytes)?;
        Ok(())
    }

    // Records a write.
    #[tactic(auto, using(crate::proofs::Calls::one_more_call))]
    fn note_write(&mut self, at: u32, bytes: &[u8]) -> Result<(), NoMemory>
        ensures ok { OnOk result (self.new ≡ recorded (Call.Wrote at bytes.now) self.old) }
        ensures err { OnErr result (self.new ≡ self.old) }
    {
        let call = Call::Wrote(at, Bytes::from_slice(self.alloc, bytes)?);
        add_write(&mut self.calls, &mut self.bytes, call, at, bytes)?;
        Ok(())
    }

    // Records a write that fails half-way.
    #[tactic(auto, using(crate::proofs::Calls::one_more_call))]
    fn note_torn(&mut self, at: u32, bytes: &[u8]) -> Result<(), NoMemory>
        ensures ok { OnOk result (self.new ≡ recorded (Call.Tore at bytes.now) self.old) }
        ensures err { OnErr result (self.new ≡ self.old) }
    {
        let call = Call::Tore(at, Bytes::from_slice(self.alloc, bytes)?);
        add_write(&mut self.calls, &mut self.bytes, call, at, half(bytes))?;
        Ok(())
    }

    // Counts a failure of the disk.
    fn fail_disk(&mut self) -> Failed
        ensures counted { self.new ≡ disk_failed self.old }
        ensures later { self.old.disk_faults ≤ self.new.disk_faults }
    {
        self.disk_faults = self.disk_faults.saturating_add(1);
        Failed
    }

    // Counts a failure of speech.
    fn fail_speech(&mut self) -> Failed
        ensures counted { self.new ≡ speech_failed self.old }
        ensures later { self.old.speak_faults ≤ self.new.speak_faults }
    {
        self.speak_faults = self.speak_faults.saturating_add(1);
        Failed
    }

    // A call of the disk that changes nothing.
    fn try_pass(&mut self) -> Result<(), Failed>
        ensures listed { IsTrue (is_listed (length self.old.calls) self.old.failing) → IsErr result }
        ensures ok { OnOk result (self.new ≡ recorded Call.Quiet self.old) }
        ensures err { OnErr result (FailedDisk Call.Quiet self.old self.new) }
        ensures unlisted { IsFalse (is_listed (length self.old.calls) self.old.failing) → OnErr result (self.new ≡ disk_failed self.old) }
        ensures cause { HasCause self.old.disk_faults self.new.disk_faults result }
    {
        if self.is_listed() {
            let _ = self.note_quiet();
            return Err(self.fail_disk());
        }
        match self.note_quiet() {
            Ok(()) => Ok(()),
            Err(_) => Err(self.fail_disk()),
        }
    }

    // A write.
    fn try_write(&mut self, at: u32, bytes: &[u8]) -> Result<(), Failed>
        ensures listed { IsTrue (is_listed (length self.old.calls) self.old.failing) → IsErr result }
        ensures ok { OnOk result (self.new ≡ recorded (Call.Wrote at bytes.now) self.old) }
        ensures err { OnErr result (FailedDisk (Call.Tore at bytes.now) self.old self.new) }
        ensures unlisted { IsFalse (is_listed (length self.old.calls) self.old.failing) → OnErr result (self.new ≡ disk_failed self.old) }
        ensures cause { HasCause self.old.disk_faults self.new.disk_faults result }
    {
        if self.is_listed() {
            let _ = self.note_torn(at, bytes);
            return Err(self.fail_disk());
        }
        match self.note_write(at, bytes) {
            Ok(()) => Ok(()),
            Err(_) => Err(self.fail_disk()),
        }
    }

    // A sync.
    fn try_sync(&mut self) -> Result<(), Failed>
        ensures listed { IsTrue (is_listed (length self.old.calls) self.old.failing) → IsErr result }
        ensures ok { OnOk result (self.new ≡ recorded Call.Synced self.old) }
        ensures err { OnErr result (FailedDisk Call.Quiet self.old self.new) }
        ensures unlisted { IsFalse (is_listed (length self.old.calls) self.old.failing) → OnErr result (self.new ≡ disk_failed self.old) }
        ensures cause { HasCause self.old.disk_faults self.new.disk_faults result }
    {
        if self.is_listed() {
            let _ = self.note_quiet();
            return Err(self.fail_disk());
        }
        match self.note_sync() {
            Ok(()) => Ok(()),
            Err(_) => Err(self.fail_disk()),
        }
    }

    // Speech.
    fn try_speak(&mut self, bytes: &[u8]) -> Result<(), Failed>
        ensures listed { IsTrue (is_listed (length self.old.calls) self.old.failing) → IsErr result }
        ensures ok { OnOk result (self.new ≡ recorded (Call.Spoke bytes.now) self.old) }
        ensures err { OnErr result (FailedSpeech (Call.Spoke (half bytes.now)) self.old self.new) }
        ensures unlisted { IsFalse (is_listed (length self.old.calls) self.old.failing) → OnErr result (self.new ≡ speech_failed self.old) }
        ensures cause { HasCause self.old.speak_faults self.new.speak_faults result }
    {
        if self.is_listed() {
            let _ = self.note_speech(half(bytes));
            return Err(self.fail_speech());
        }
        match self.note_speech(bytes) {
            Ok(()) => Ok(()),
            Err(_) => Err(self.fail_speech()),
        }
    }
}

impl Station for MemStation {
    ghost use Rattle.pss_disk.specs.inner.Told.{last_of_tape, content_of_tape};

    ghost now = { now_of };

    ghost history = { moments_of };

    ghost content = { λ s. Some (state_of s).content };

    ghost disk_faults = { λ s. s.disk_faults };

    ghost speak_faults = { λ s. s.speak_faults };

    ghost last_is_now = { λ s told. last_of_tape s };

    ghost content_is_image = { content_of_tape };

    fn len(&mut self) -> Result<u64, Failed>
        ensures len { IfOk result (λ len. len ≡ length (state_of self.old).content) }
        ensures now { now_of self.new ≡ now_of self.old }
        ensures content { Some (state_of self.new).content ≡ Some (state_of self.old).content }
        ensures time { Through (moments_of self.old) (moments_of self.new) (IsStill (now_of self.old)) }
        ensures once { length (moments_of self.new) ≤ length (moments_of self.old) + 1 }
        ensures cause { HasCause self.old.disk_faults self.new.disk_faults result }
        ensures other { self.new.speak_faults ≡ self.old.speak_faults }
        // A call that is listed fails, any other only for want of memory, and it does nothing then. One that succeeds is
        // recorded, and so is one that is listed, where there is memory.
        ensures listed { IsTrue (is_listed (length self.old.calls) self.old.failing) → IsErr result }
        ensures ok { OnOk result (self.new ≡ recorded Call.Quiet self.old) }
        ensures err { OnErr result (FailedDisk Call.Quiet self.old self.new) }
        ensures unlisted { IsFalse (is_listed (length self.old.calls) self.old.failing) → OnErr result (self.new ≡ disk_failed self.old) }
    {
        self.try_pass()?;
        Ok(self.bytes().len() as u64)
    }

    fn read_at(&mut self, at: u64, buf: &mut [u8]) -> Result<(), Failed>
        requires within { at + length buf.old ≤ disk_end }
        ensures read { OnOk result (buf.new ≡ octets_in (range_of at buf.new) (state_of self.old).content) }
        ensures now { now_of self.new ≡ now_of self.old }
        ensures content { Some (state_of self.new).content ≡ Some (state_of self.old).content }
        ensures time { Through (moments_of self.old) (moments_of self.new) (IsStill (now_of self.old)) }
        ensures once { length (moments_of self.new) ≤ length (moments_of self.old) + 1 }
        ensures cause { HasCause self.old.disk_faults self.new.disk_faults result }
        ensures other { self.new.speak_faults ≡ self.old.speak_faults }
        ensures listed { IsTrue (is_listed (length self.old.calls) self.old.failing) → IsErr result }
        ensures ok { OnOk result (self.new ≡ recorded Call.Quiet self.old) }
        ensures err { OnErr result (FailedDisk Call.Quiet self.old self.new) }
        ensures unlisted { IsFalse (is_listed (length self.old.calls) self.old.failing) → OnErr result (self.new ≡ disk_failed self.old) }
    {
        self.try_pass()?;
        give(self.bytes(), at as usize, buf);
        Ok(())
    }

    fn write_at(&mut self, at: u64, bytes: &[u8]) -> Result<(), Failed>
        requires within { at + length bytes.now ≤ disk_end }
        ensures written { OnOk result (Some (state_of self.new).content ≡ Some (write at bytes.now (state_of self.old).content)) }
        ensures failed { OnErr result (StaysOutside (range_of at bytes.now) (Some (state_of self.old).content) (Some (state_of self.new).content)) }
        ensures now { OnOk result (now_of self.new ≡ wrote (range_of at bytes.now) (now_of self.old)) }
        ensures maybe { OnErr result (DuringWrite (range_of at bytes.now) (now_of self.old) (now_of self.new)) }
        ensures time { Through (moments_of self.old) (moments_of self.new) (DuringWrite (range_of at bytes.now) (now_of self.old)) }
        ensures once { length (moments_of self.new) ≤ length (moments_of self.old) + 1 }
        ensures cause { HasCause self.old.disk_faults self.new.disk_faults result }
        ensures other { self.new.speak_faults ≡ self.old.speak_faults }
        // One that is listed fails, with the first half of the bytes written where there is memory.
        ensures listed { IsTrue (is_listed (length self.old.calls) self.old.failing) → IsErr result }
        ensures ok { OnOk result (self.new ≡ recorded (Call.Wrote at bytes.now) self.old) }
        ensures err { OnErr result (FailedDisk (Call.Tore at bytes.now) self.old self.new) }
        ensures unlisted { IsFalse (is_listed (length self.old.calls) self.old.failing) → OnErr result (self.new ≡ disk_failed self.old) }
    {
        self.try_write(at as u32, bytes)?;
        Ok(())
    }

    fn sync(&mut self) -> Result<(), Failed>
        ensures durable { OnOk result (now_of self.new ≡ synced (Some (state_of self.old).content) (now_of self.old)) }
        ensures maybe { OnErr result (DuringSync (Some (state_of self.old).content) (now_of self.old) (now_of self.new)) }
        ensures content { Some (state_of self.new).content ≡ Some (state_of self.old).content }
        ensures time { Through (moments_of self.old) (moments_of self.new) (DuringSync (Some (state_of self.old).content) (now_of self.old)) }
        ensures once { length (moments_of self.new) ≤ length (moments_of self.old) + 1 }
        ensures cause { HasCause self.old.disk_faults self.new.disk_faults result }
        ensures other { self.new.speak_faults ≡ self.old.speak_faults }
        ensures listed { IsTrue (is_listed (length self.old.calls) self.old.failing) → IsErr result }
        ensures ok { OnOk result (self.new ≡ recorded Call.Synced self.old) }
        ensures err { OnErr result (FailedDisk Call.Quiet self.old self.new) }
        ensures unlisted { IsFalse (is_listed (length self.old.calls) self.old.failing) → OnErr result (self.new ≡ disk_failed self.old) }
    {
        self.try_sync()?;
        Ok(())
    }

    fn speak(&mut self, bytes: &[u8]) -> Result<(), Failed>
        ensures spoken { OnOk result (now_of self.new ≡ spoke bytes.now (now_of self.old)) }
        ensures failed { OnErr result (DuringSpeak bytes.now (now_of self.old) (now_of self.new)) }
        ensures content { Some (state_of self.new).content ≡ Some (state_of self.old).content }
        ensures time { Through (moments_of self.old) (moments_of self.new) (DuringSpeak bytes.now (now_of self.old)) }
        ensures once { length (moments_of self.new) ≤ length (moments_of self.old) + 1 }
        ensures cause { HasCause self.old.speak_faults self.new.speak_faults result }
        ensures other { self.new.disk_faults ≡ self.old.disk_faults }
        // One that is listed fails, with the first half of the bytes spoken where there is memory.
        ensures listed { IsTrue (is_listed (length self.old.calls) self.old.failing) → IsErr result }
        ensures ok { OnOk result (self.new ≡ recorded (Call.Spoke bytes.now) self.old) }
        ensures err { OnErr result (FailedSpeech (Call.Spoke (half bytes.now)) self.old self.new) }
        ensures unlisted { IsFalse (is_listed (length self.old.calls) self.old.failing) → OnErr result (self.new ≡ speech_failed self.old) }
    {
        self.try_speak(bytes)?;
        Ok(())
    }
}
