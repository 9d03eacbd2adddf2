// A station by what it tells: what was spoken, and what a crash may leave, at each moment.
ghost use Rattle.std.specs.Prelude.{◌≡◌, ◌+◌, ◌≤◌, List, ℕ, OnOk, OnErr, IfOk, IfSome, length};
ghost use Rattle.std.specs.declared.option.Option.{Option};
ghost use Rattle.std.specs.Option.{option_map};
ghost use Rattle.pss_base.specs.Causes.{HasCause};
ghost use Rattle.pss_disk.specs.Moments.{Moment, Through, IsStill, DuringSpeak, DuringWrite, DuringSync, IsLast, TellsContent, spoke, wrote, synced};
ghost use Rattle.pss_disk.specs.Octets.{StaysOutside, disk_end, octets_in, range_of, write};

use pss_base::Failed;

/// Disk and speech in one object, so that their calls have one order.
///
/// A crash at any moment leaves the octets that the last sync made sure of, but for those of ranges that were written
/// since then and those past the old end, which may be any; its length is any between the old one and the greatest
/// since then. At each call at most one moment comes. A call answers `Failed` only where the count of its kind rose,
/// and never touches the other count.
pub trait Station {
    /// What it tells of this moment: all that was spoken, and what a crash may leave.
    ghost now: { Self → Moment };

    /// The moments that it tells of, the first one first. Their number is its clock.
    ghost history: { Self → List Moment };

    /// What a read gives, where it tells it.
    ghost content: { Self → Option (List ℕ) };

    /// How often the disk has failed, up to the last value of a u64.
    ghost disk_faults: { Self → ℕ };

    /// How often speech has failed, up to the last value of a u64.
    ghost speak_faults: { Self → ℕ };

    /// How many octets the content has.
    fn len(&mut self) -> Result<u64, Failed>
        ensures len { IfOk result (λ len. IfSome (content self.old) (λ c. len ≡ length c)) }
        ensures now { now self.new ≡ now self.old }
        ensures content { content self.new ≡ content self.old }
        ensures time { Through (history self.old) (history self.new) (IsStill (now self.old)) }
        ensures once { length (history self.new) ≤ length (history self.old) + 1 }
        ensures cause { HasCause (disk_faults self.old) (disk_faults self.new) result }
        ensures other { speak_faults self.new ≡ speak_faults self.old };

    /// Reads octets of the content, from a place on, into the whole buffer. Octets past the end are read as zero, which
    /// is no failure. Place and length end at most at 272,891,904.
    fn read_at(&mut self, at: u64, buf: &mut [u8]) -> Result<(), Failed>
        requires within { at + length buf.old ≤ disk_end }
        ensures read { OnOk result (IfSome (content self.old) (λ c. buf.new ≡ octets_in (range_of at buf.new) c)) }
        ensures now { now self.new ≡ now self.old }
        ensures content { content self.new ≡ content self.old }
        ensures time { Through (history self.old) (history self.new) (IsStill (now self.old)) }
        ensures once { length (history self.new) ≤ length (history self.old) + 1 }
        ensures cause { HasCause (disk_faults self.old) (disk_faults self.new) result }
        ensures other { speak_faults self.new ≡ speak_faults self.old };

    /// Writes all the bytes into the content, from a place on. A gap behind the old end is filled with zero octets; a
    /// write of no octets changes nothing. Place and length end at most at 272,891,904. Where it failed, the octets of
    /// that range and those past the old end are open, and a crash may leave any there too; all others stay.
    fn write_at(&mut self, at: u64, bytes: &[u8]) -> Result<(), Failed>
        requires within { at + length bytes.now ≤ disk_end }
        ensures written { OnOk result (content self.new ≡ option_map (write at bytes.now) (content self.old)) }
        ensures failed { OnErr result (StaysOutside (range_of at bytes.now) (content self.old) (content self.new)) }
        ensures now { OnOk result (now self.new ≡ wrote (range_of at bytes.now) (now self.old)) }
        ensures maybe { OnErr result (DuringWrite (range_of at bytes.now) (now self.old) (now self.new)) }
        ensures time { Through (history self.old) (history self.new) (DuringWrite (range_of at bytes.now) (now self.old)) }
        ensures once { length (history self.new) ≤ length (history self.old) + 1 }
        ensures cause { HasCause (disk_faults self.old) (disk_faults self.new) result }
        ensures other { speak_faults self.new ≡ speak_faults self.old };

    /// Makes sure of the content: after it a crash leaves what a read gives.
    fn sync(&mut self) -> Result<(), Failed>
        ensures durable { OnOk result (now self.new ≡ synced (content self.old) (now self.old)) }
        ensures maybe { OnErr result (DuringSync (content self.old) (now self.old) (now self.new)) }
        ensures content { content self.new ≡ content self.old }
        ensures time { Through (history self.old) (history self.new) (DuringSync (content self.old) (now self.old)) }
        ensures once { length (history self.new) ≤ length (history self.old) + 1 }
        ensures cause { HasCause (disk_faults self.old) (disk_faults self.new) result }
        ensures other { speak_faults self.new ≡ speak_faults self.old };

    /// Speaks all the bytes. Where it failed, some first bytes were spoken.
    fn speak(&mut self, bytes: &[u8]) -> Result<(), Failed>
        ensures spoken { OnOk result (now self.new ≡ spoke bytes.now (now self.old)) }
        ensures failed { OnErr result (DuringSpeak bytes.now (now self.old) (now self.new)) }
        ensures content { content self.new ≡ content self.old }
        ensures time { Through (history self.old) (history self.new) (DuringSpeak bytes.now (now self.old)) }
        ensures once { length (history self.new) ≤ length (history self.old) + 1 }
        ensures cause { HasCause (speak_faults self.old) (speak_faults self.new) result }
        ensures other { disk_faults self.new ≡ disk_faults self.old };

    /// What it tells of now is the last moment of its history.
    ghost last_is_now: { (s : Self) → IsLast (history s) (now s) };

    /// Where it tells its images, its content is one of them.
    ghost content_is_image: { (s : Self) → TellsContent (content s) (now s) };
}
