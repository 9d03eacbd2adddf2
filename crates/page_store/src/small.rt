// The new page that has little in use.
ghost use Rattle.std.specs.Prelude.{map};
ghost use Rattle.page_store.specs.Checkpoints.{IsSmallAmong};
ghost use Rattle.page_format.specs.Packing.{OnlyLastIsSmall};
ghost use Rattle.page_format.specs.Written.{AreWritable};

use page_format::NewPage;
use page_format::layout::LITTLE;

/// The slot of the page with little in use: it can be the last one alone.
pub fn small_of(pages: &[NewPage]) -> Option<u32>
    requires writable { AreWritable pages.now }
    requires large { OnlyLastIsSmall (map (λ page. page.entries) pages.now) }
    ensures { IsSmallAmong pages.now result }
{
    let Some(page) = pages.last() else {
        return None;
    };
    if page.entries.used() <= LITTLE {
        return Some(page.slot);
    }
    None
}
