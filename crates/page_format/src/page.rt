// The head of a page, and the heads of its entries.
ghost use Rattle.std.specs.Prelude.{◌≡◌, ◌↔◌, ◌+◌, ◌≤◌, IsTrue, length, IfSome, IsNone};
ghost use Rattle.pss_disk.specs.Parts.{Stands, number4, number8};
ghost use Rattle.page_format.specs.Pages.{Fits, IsPageHead, entry_count, octets_in_use, page_magic, page_zeros, record_length};

use crate::layout::{
    ENTRIES, ENTRY_COUNT, MOST_USED, PAGE_MAGIC, PAGE_SLOT, PAGE_ZEROS, RECORD, RECORD_LENGTH,
    SERIAL, USED, ZEROS,
};
use pss_base::LONGEST_RECORD;
use pss_disk::{read_number4, read_number8};

/// What stands in a page in front of its entries.
#[derive(Clone, Copy)]
pub struct PageHead {
    /// The number of entries.
    pub count: u32,
    /// How many octets they use.
    pub used: u32,
}

// Whether a page begins with the right magic.
fn has_magic(page: &[u8]) -> bool
    requires { length page.now ≡ 16384 }
    ensures { IsTrue result ↔ Stands page.now 0 page_magic }
{
    page[..PAGE_MAGIC.len()] == PAGE_MAGIC[..]
}

// Whether zero octets stand in front of the entries.
fn has_zeros(page: &[u8]) -> bool
    requires { length page.now ≡ 16384 }
    ensures { IsTrue result ↔ Stands page.now 28 page_zeros }
{
    page[ZEROS..ENTRIES] == PAGE_ZEROS[..]
}

// Whether the head of the page in a slot is right.
fn is_page_head(page: &[u8], slot: u32) -> bool
    requires { length page.now ≡ 16384 }
    ensures { IsTrue result ↔ IsPageHead page.now 0 slot }
{
    has_magic(page)
        && read_number4(page, PAGE_SLOT) == slot
        && has_zeros(page)
        && read_number4(page, USED) <= MOST_USED
}

/// The head of the page in a slot, or none where it is wrong.
pub fn read_page_head(page: &[u8], slot: u32) -> Option<PageHead>
    requires { length page.now ≡ 16384 }
    ensures right { IfSome result (λ head. IsPageHead page.now 0 slot) }
    ensures count { IfSome result (λ head. entry_count page.now 0 ≡ head.count) }
    ensures used { IfSome result (λ head. octets_in_use page.now 0 ≡ head.used) }
    ensures wrong { IsNone result → IsPageHead page.now 0 slot → ⊥ }
{
    if !is_page_head(page, slot) {
        return None;
    }
    Some(PageHead {
        count: read_number4(page, ENTRY_COUNT),
        used: read_number4(page, USED),
    })
}

/// What stands in an entry in front of its record.
#[derive(Clone, Copy)]
pub struct EntryHead {
    pub home: u32,
    /// The length of the record.
    pub len: u32,
    pub serial: u64,
}

/// The head of the entry at a place of a page, or none where the entry does not fit in front of an end.
pub fn read_entry(page: &[u8], at: usize, end: usize) -> Option<EntryHead>
    requires page { length page.now ≡ 16384 }
    requires end { end ≤ 16384 }
    requires at { at ≤ end }
    ensures fits { IfSome result (λ entry. Fits end at (record_length page.now at)) }
    ensures home { IfSome result (λ entry. number4 page.now at ≡ entry.home) }
    ensures len { IfSome result (λ entry. record_length page.now at ≡ entry.len) }
    ensures serial { IfSome result (λ entry. number8 page.now (at + 8) ≡ entry.serial) }
    ensures none { IsNone result → Fits end at (record_length page.now at) → ⊥ }
{
    if at + RECORD > end {
        return None;
    }
    let len = read_number4(page, at + RECORD_LENGTH);
    if len == 0 || len > LONGEST_RECORD || at + RECORD + len as usize > end {
        return None;
    }
    Some(EntryHead {
        home: read_number4(page, at),
        len,
        serial: read_number8(page, at + SERIAL),
    })
}
