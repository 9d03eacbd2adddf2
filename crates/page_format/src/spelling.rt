// Pages and roots as octets.
ghost use Rattle.std.specs.Prelude.{◌≡◌, ◌++◌, ◌+◌, ◌*◌, ◌<◌, ◌≤◌, ◌^◌, length};
ghost use Rattle.page_format.specs.Objects.{entries_left, entry_left};
ghost use Rattle.page_format.specs.Written.{AreStorable, AreWritable, IsStorable, IsWritable, entries_octets, entry_octets, list_octets, pages_octets, root_octets, whole_page};

use crate::buffer::Buffer;
use crate::layout::{MOST_USED, PAGE_MAGIC, PAGE_ZEROS, ROOT_MAGIC};
use crate::new_page::NewPage;
use crate::packing::record_of;
use crate::root::Root;
use pss_base::Put;

// Puts an entry behind what a buffer has.
fn put_entry(buffer: &mut Buffer, put: &Put)
    requires storable { IsStorable (entry_left put.now) }
    requires room { length buffer.old.octets + 16 + length (entry_left put.now).octets ≤ buffer.old.size }
    ensures { buffer.new ≡ record { size = buffer.old.size; octets = buffer.old.octets ++ entry_octets (entry_left put.now) } }
{
    let octets = record_of(put);
    buffer.put(&put.home.to_be_bytes());
    buffer.put(&(octets.len() as u32).to_be_bytes());
    buffer.put(&put.serial.to_be_bytes());
    buffer.put(octets);
}

// Puts entries behind what a buffer has.
fn put_entries(buffer: &mut Buffer, puts: &[Put])
    requires storable { AreStorable (entries_left puts.now) }
    requires room { length buffer.old.octets + length (entries_octets (entries_left puts.now)) ≤ buffer.old.size }
    ensures { buffer.new ≡ record { size = buffer.old.size; octets = buffer.old.octets ++ entries_octets (entries_left puts.now) } }
{
    for put in puts {
        put_entry(buffer, put);
    }
}

// Puts a whole page behind what a buffer has.
fn put_page(buffer: &mut Buffer, epoch: u64, page: &NewPage)
    requires writable { IsWritable page.now }
    requires room { length buffer.old.octets + 16384 ≤ buffer.old.size }
    ensures { buffer.new ≡ record { size = buffer.old.size; octets = buffer.old.octets ++ whole_page epoch page.now } }
{
    let entries = page.entries.as_slice();
    let used = page.entries.used();
    buffer.put(&PAGE_MAGIC);
    buffer.put(&epoch.to_be_bytes());
    buffer.put(&page.slot.to_be_bytes());
    buffer.put(&(entries.len() as u32).to_be_bytes());
    buffer.put(&used.to_be_bytes());
    buffer.put(&PAGE_ZEROS);
    put_entries(buffer, entries);
    buffer.put_zeros((MOST_USED - used) as usize);
}

/// Puts whole pages behind what a buffer has, one after another.
pub fn put_pages(buffer: &mut Buffer, epoch: u64, pages: &[NewPage])
    requires writable { AreWritable pages.now }
    requires room { length buffer.old.octets + length pages.now * 16384 ≤ buffer.old.size }
    ensures { buffer.new ≡ record { size = buffer.old.size; octets = buffer.old.octets ++ pages_octets epoch pages.now } }
{
    for page in pages {
        put_page(buffer, epoch, page);
    }
}

/// Puts what stands in a root area between its gate and its slots behind what a buffer has.
pub fn put_root(buffer: &mut Buffer, root: &Root)
    requires shape { length root.now.shape ≤ 65536 }
    requires slots { length root.now.slots ≤ 8058 }
    requires room { length buffer.old.octets + 31 + length root.now.shape ≤ buffer.old.size }
    ensures put { buffer.new ≡ record { size = buffer.old.size; octets = buffer.old.octets ++ root_octets root.now } }
    ensures next { root.now.next < 2 ^ 64 }
{
    let shape = root.shape.as_slice();
    let slots = root.slots.as_slice();
    buffer.put(&ROOT_MAGIC);
    buffer.put(&root.epoch.to_be_bytes());
    buffer.put(&root.next.to_be_bytes());
    buffer.put(&(shape.len() as u32).to_be_bytes());
    buffer.put(&(slots.len() as u32).to_be_bytes());
    buffer.put(shape);
}

/// Puts slots behind what a buffer has.
pub fn put_slots(buffer: &mut Buffer, slots: &[u32])
    requires { length buffer.old.octets + length slots.now * 4 ≤ buffer.old.size }
    ensures { buffer.new ≡ record { size = buffer.old.size; octets = buffer.old.octets ++ list_octets slots.now } }
{
    for slot in slots {
        buffer.put(&slot.to_be_bytes());
    }
}
