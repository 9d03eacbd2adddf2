// What types and homes have by descent.
ghost use Rattle.std.specs.Prelude.{◌≡◌};
ghost use Rattle.psdl_lineage.specs.Graph.{graph_of};
ghost use Rattle.psdl_lineage.specs.Lineages.{text_of};
ghost use Rattle.psdl_members.specs.inner.Had.{AreHad, AreFlags, Fits};
ghost use Rattle.psdl_members.specs.inner.Heirs.{AreClashes};

use crate::clashes::Clashes;
use crate::firsts::Firsts;
use crate::list_clash::lists_clash;
use crate::own::{Own, own_of, owners};
use crate::type_clash::have_clash;
use psdl_directory::{DeclarationNo, What};
use psdl_lineage::{Lineage, Sources};
use pss_base::NoMemory;
use std::alloc::Global;

/// What the storage types and homes of a text have, of their own and by descent.
#[derive(Drop)]
pub struct Inherited<'l, 'd> {
    lineage: &'l Lineage<'l, 'd>,
    sources: Sources<'l>,
    own: Own,
    firsts: Firsts,
    clashes: Clashes,
    ghost graphed: { sources.graph ≡ graph_of (text_of lineage.now) },
    ghost flagged: { AreFlags (text_of lineage.now) own sources.own },
    ghost had: { AreHad (text_of lineage.now) own },
    ghost fits: { Fits own firsts },
    ghost told: { AreClashes (graph_of (text_of lineage.now)) own.lists clashes.flags.items },
}

impl<'l, 'd> Inherited<'l, 'd> {
    ghost use Rattle.std.specs.Prelude.{◌≡◌, ◌||◌, not, IfOk};
    ghost use Rattle.type_layout.specs.Sound.{are_distinct};
    ghost use Rattle.psdl_directory.specs.inner.Nodes.{what_view};
    ghost use Rattle.psdl_lineage.specs.Descent.{members, home_keys, home_factories};
    ghost use Rattle.psdl_lineage.specs.Lineages.{text_of};
    ghost use Rattle.psdl_members.specs.Clashes as clashes;
    ghost use Rattle.psdl_members.specs.Texts.{inherited_in};
    ghost use Rattle.psdl_members.specs.inner.Had.{AreHad};

    fn with_own(
        alloc: Global,
        lineage: &'l Lineage<'l, 'd>,
        own: Own,
    ) -> Result<Inherited<'l, 'd>, NoMemory>
        requires { AreHad (text_of lineage.now) own }
        ensures { IfOk result (λ i. inherited_in i ≡ text_of lineage.now) }
    {
        let flags = owners(alloc, lineage.directory(), &own)?;
        let sources = Sources::new(alloc, lineage, flags)?;
        let firsts = Firsts::new(alloc, own.most_names())?;
        let clashes = Clashes::new(alloc);
        Ok(Inherited {
            lineage,
            sources,
            own,
            firsts,
            clashes,
        })
    }

    /// By the lineage of a text. `NoMemory`: there was no room for the lists of what its declarations have.
    pub fn new(alloc: Global, lineage: &'l Lineage<'l, 'd>) -> Result<Inherited<'l, 'd>, NoMemory>
        ensures { IfOk result (λ i. inherited_in i ≡ text_of lineage.now) }
    {
        let own = own_of(alloc, lineage.directory())?;
        Inherited::with_own(alloc, lineage, own)
    }

    fn members_clash(&mut self, alloc: Global, number: DeclarationNo) -> Result<bool, NoMemory>
        ensures same { inherited_in self.new ≡ inherited_in self.old }
        ensures clash { IfOk result (λ r. r ≡ not (are_distinct clashes.members_clash (members (inherited_in self.old) number))) }
    {
        let sources = self.sources.of(alloc, number)?;
        let clash = have_clash(&mut self.firsts.marks, &self.own.names, &sources);
        Ok(clash)
    }

    // By what a home descends from, where it, or a declaration in front of it, names one that is not in front of itself.
    // That is a fault in the header, so no home behind it is asked about.
    fn lists_clash_apart(&mut self, alloc: Global, number: DeclarationNo) -> Result<bool, NoMemory>
        ensures same { inherited_in self.new ≡ inherited_in self.old }
        ensures clash { IfOk result (λ r. r ≡ (not (are_distinct clashes.lists_clash (home_keys (inherited_in self.old) number)) || not (are_distinct clashes.lists_clash (home_factories (inherited_in self.old) number)))) }
    {
        let sources = self.sources.of(alloc, number)?;
        let clash = lists_clash(&mut self.firsts, &self.own.lists, &sources);
        Ok(clash)
    }

    // Finds out what clashes, unless that was done.
    fn learn(&mut self, alloc: Global) -> Result<(), NoMemory>
        ensures { inherited_in self.new ≡ inherited_in self.old }
    {
        self.clashes
            .learn(alloc, self.lineage.graph(), &self.own.lists)
    }

    fn lists_clash(&mut self, alloc: Global, number: DeclarationNo) -> Result<bool, NoMemory>
        ensures same { inherited_in self.new ≡ inherited_in self.old }
        ensures clash { IfOk result (λ r. r ≡ (not (are_distinct clashes.lists_clash (home_keys (inherited_in self.old) number)) || not (are_distinct clashes.lists_clash (home_factories (inherited_in self.old) number)))) }
    {
        self.learn(alloc)?;
        match self.clashes.of(number.index()) {
            Some(clash) => Ok(clash),
            None => self.lists_clash_apart(alloc, number),
        }
    }

    /// Whether a type has two members, or a home two keys or two factories, that clash: their names are equal but for case
    /// and, of keys and factories, their lists differ. Without memory the next question is answered as ever.
    pub fn has_clash(
        &mut self,
        alloc: Global,
        number: DeclarationNo,
        what: What<'_>,
    ) -> Result<bool, NoMemory>
        ensures same { inherited_in self.new ≡ inherited_in self.old }
        ensures clash { IfOk result (λ r. r ≡ clashes.has_clash (inherited_in self.old) number (what_view what.entry)) }
    {
        if what.is_storage_type() {
            let clash = self.members_clash(alloc, number)?;
            return Ok(clash);
        }
        if what.is_home() {
            let clash = self.lists_clash(alloc, number)?;
            return Ok(clash);
        }
        Ok(false)
    }
}
