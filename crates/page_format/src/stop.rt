// Why the entries of a page were not gathered.
use pss_base::DamageKind;

/// Why the entries of a page were not gathered.
#[derive(Clone, Copy, Drop)]
pub enum PageStop {
    /// At this place of the page something is wrong.
    Damaged(u32, DamageKind),
    NoMemory,
}
