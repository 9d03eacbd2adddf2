// A `get` by its words, where its value is told at once.
ghost use Rattle.std.specs.Prelude.{◌≡◌, ◌-◌, ◌<◌, ◌^◌, true, false, IfOk, OnErr};
ghost use Rattle.connector.specs.Keeping.{AnyKept, store_of, performed_by, is_live};
ghost use Rattle.connector.specs.Lines.{IsTold};

use crate::connector::Connector;
use pss_base::{Bytes, NoMemory};

impl Connector {
    /// Performs a `get` by its words as they stand in the line, where an entry's copy tells the value at once: its text is added to the
    /// line that is told. False, which may come for any words: all is as before, and it is to be performed by `perform`. The store is left
    /// alone.
    ///
    /// `NoMemory`: there was no memory. The connector is not live any more, and nothing more is said of it.
    #[inline(always)]
    pub fn tell(
        &mut self,
        s: &[u8],
        entry: u64,
        member: &[u8],
        line: &mut Bytes,
    ) -> Result<bool, NoMemory>
        requires live { is_live self.old ≡ true }
        requires kept { AnyKept self.old }
        requires left { performed_by self.old < 2 ^ 32 - 1 }
        ensures told { IfOk result (λ told. IsTold self.old self.new s.now entry member.now told line.old line.new) }
        ensures store { store_of self.new ≡ store_of self.old }
        ensures ended { OnErr result (is_live self.new ≡ false) }
    {
        match data_calls::tell(&mut self.parts, s, entry, member, line) {
            Ok(true) => {
                self.performed += 1;
                Ok(true)
            }
            Ok(false) => Ok(false),
            Err(memory) => {
                self.live = false;
                Err(memory)
            }
        }
    }
}
