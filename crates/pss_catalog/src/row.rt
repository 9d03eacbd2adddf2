// What the table of families keeps of a home.

/// A row for each home by its number, behind one for all homes, which stands for the base of those
/// without base.
#[derive(Clone, Copy, Drop)]
pub struct Row {
    /// The number of the home's base, or 0.
    pub base: u32,
    /// The number of the home without base that it derives from, or its own.
    pub root: u32,
    /// How many homes derive from it, and itself.
    pub size: u32,
    /// Its place, from 1, in the order in which those that derive from a home stand behind it.
    pub place: u32,
    /// The place behind the last of these.
    pub end: u32,
}
