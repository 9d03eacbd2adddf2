// The first list that came with each name.
ghost use Rattle.std.specs.Prelude.{IfOk};
ghost use Rattle.psdl_members.specs.inner.Room.{HasRoom};

use psdl_lineage::Marks;
use pss_base::NoMemory;
use std::alloc::Global;

/// For each name that is marked the list that came first with it.
#[derive(Drop)]
pub(crate) struct Firsts {
    pub marks: Marks,
    pub lists: Vec<usize>,
}

impl Firsts {
    /// No list has come yet with any of so many names.
    pub(crate) fn new(alloc: Global, names: usize) -> Result<Firsts, NoMemory>
        ensures { IfOk result (λ f. HasRoom f names) }
    {
        let marks = Marks::new(alloc, names)?;
        Ok(Firsts {
            marks,
            lists: vec![in alloc; 0; names]?,
        })
    }
}
