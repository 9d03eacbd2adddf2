// The text that a schema is made of.
ghost use Rattle.std.proofs.Props.{props};
ghost use Rattle.std.specs.Prelude.{◌≡◌};
ghost use Rattle.psdl_directory.specs.Headers as of;
ghost use Rattle.psdl_lineage.specs.Lineages.{text_of};
ghost use Rattle.psdl_lineage.specs.Graph.{graph_of};
ghost use Rattle.psdl_check.specs.inner.FewMembers.{HasFewMembers};
ghost use Rattle.psdl_check.specs.inner.HomeNos.{home_nos};
ghost use Rattle.psdl_check.specs.inner.Rising.{IsRising};
ghost use Rattle.psdl_check.specs.inner.SmallTypes.{AreSmallLayouts, small_prop};

use crate::home_numbers::home_numbers;
use psdl_directory::{DeclarationNo, Directory, Header, Use};
use psdl_lineage::{Graph, Lineage};
use psdl_standings::Standings;
use pss_base::NoMemory;
use std::alloc::Global;
use type_layout::HomeNo;

/// What is known of a text: what its declarations descend from and stand for, and the numbers of its homes.
#[derive(Drop)]
pub(crate) struct Text<'t, 'd> {
    pub lineage: &'t Lineage<'t, 'd>,
    pub standings: &'t Standings<'t, 'd>,
    headers: &'t [Header],
    numbers: Vec<HomeNo>,
    ghost headed: { headers.now ≡ of.headers (text_of lineage.now) },
    ghost rising: { IsRising (graph_of (text_of lineage.now)) },
    ghost few: { HasFewMembers (text_of lineage.now) },
    ghost small: { AreSmallLayouts (text_of lineage.now) } by { Prim.hlevel (small_prop, props) },
    ghost numbered: { numbers.items ≡ home_nos (text_of lineage.now) },
}

impl<'t, 'd> Text<'t, 'd> {
    ghost use Rattle.std.specs.Prelude.{◌≡◌, option_map, IfOk};
    ghost use Rattle.psdl_directory.specs.Directories.{all_of};
    ghost use Rattle.psdl_directory.specs.Headers as of;
    ghost use Rattle.psdl_lineage.specs.Descent as descent;
    ghost use Rattle.psdl_lineage.specs.Graph.{graph_of};
    ghost use Rattle.psdl_check.specs.inner.FewMembers.{HasFewMembers};
    ghost use Rattle.psdl_check.specs.inner.HomeNos.{HasFewHomes};
    ghost use Rattle.psdl_check.specs.inner.Rising.{IsRising};
    ghost use Rattle.psdl_check.specs.inner.SmallTypes.{AreSmallLayouts};
    ghost use Rattle.psdl_lineage.specs.Lineages.{text_of};
    ghost use Rattle.psdl_standings.specs.Texts as told;
    ghost use Rattle.psdl_check.specs.Schemas.{home_no};
    ghost use Rattle.psdl_check.specs.inner.Texts.{text_in, told_in};

    /// By these.
    pub(crate) fn new(
        alloc: Global,
        lineage: &'t Lineage<'t, 'd>,
        standings: &'t Standings<'t, 'd>,
        headers: &'t [Header],
    ) -> Result<Text<'t, 'd>, NoMemory>
        requires headers { headers.now ≡ of.headers (text_of lineage.now) }
        requires rising { IsRising (graph_of (text_of lineage.now)) }
        requires few { HasFewHomes (text_of lineage.now) }
        requires members { HasFewMembers (text_of lineage.now) }
        requires small { AreSmallLayouts (text_of lineage.now) }
        ensures text { IfOk result (λ t. text_in t ≡ text_of lineage.now) }
        ensures told { IfOk result (λ t. told_in t ≡ told.text_of standings.now) }
    {
        let numbers = home_numbers(alloc, lineage.directory())?;
        Ok(Text {
            lineage,
            standings,
            headers,
            numbers,
        })
    }

    /// The directory of the text.
    pub(crate) fn directory(&self) -> &'t Directory<'d>
        ensures { all_of result.now ≡ text_in self.now }
    {
        self.lineage.directory()
    }

    /// What each declaration names as bases or implements: what stands in front of it.
    pub(crate) fn graph(&self) -> &'t Graph
        ensures graph { result.now ≡ graph_of (text_in self.now) }
        ensures rising { IsRising result.now }
    {
        self.lineage.graph()
    }

    /// The number of a concrete home, and 0 of what is none.
    pub(crate) fn home_no(&self, home: DeclarationNo) -> HomeNo
        ensures { result ≡ home_no (text_in self.now) home }
    {
        match self.numbers.get(home.index()) {
            Some(number) => *number,
            None => HomeNo(0),
        }
    }

    /// The number of the home that a home derives from.
    pub(crate) fn base_no(&self, home: DeclarationNo) -> Option<HomeNo>
        ensures { result ≡ option_map (home_no (text_in self.now)) (descent.base_home (text_in self.now) home) }
    {
        match self.lineage.base_home(home) {
            Some(base) => Some(self.home_no(base)),
            None => None,
        }
    }

    /// What the homes mean that a catalog provides.
    pub(crate) fn provided(&self, catalog: DeclarationNo) -> &'t [Use]
        ensures { result.now ≡ (of.header (text_in self.now) catalog).provided }
    {
        match self.headers.get(catalog.index()) {
            Some(header) => header.provided(),
            None => &[],
        }
    }
}
