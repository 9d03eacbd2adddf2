// A text under judgement.
ghost use Rattle.std.specs.Prelude.{◌≡◌};
ghost use Rattle.psdl_directory.specs.Headers as of;
ghost use Rattle.psdl_lineage.specs.Lineages.{text_of};

use psdl_directory::{DeclarationNo, Directory, Header, Use, What};
use psdl_lineage::Lineage;
use pss_base::Place;
use std::slice;

/// A text, with what was found out about it before it is judged.
#[derive(Drop)]
pub struct Text<'t, 'd> {
    headers: &'t [Header],
    lineage: &'t Lineage<'t, 'd>,
    ghost headed: { headers.now ≡ of.headers (text_of lineage.now) },
}

impl<'t, 'd> Text<'t, 'd> {
    ghost use Rattle.std.specs.Prelude.{◌≡◌, length, IfSome, IfNone};
    ghost use Rattle.std.specs.Option.{option_to_list};
    ghost use Rattle.psdl_directory.specs.Directories.{all_of};
    ghost use Rattle.psdl_directory.specs.Headers as of;
    ghost use Rattle.psdl_directory.specs.Headers.{header};
    ghost use Rattle.psdl_directory.specs.Lookup.{at};
    ghost use Rattle.psdl_directory.specs.inner.Nodes.{what_view};
    ghost use Rattle.psdl_lineage.specs.Lineages.{text_of};
    ghost use Rattle.psdl_rules.specs.Texts.{judged};
    ghost use Rattle.psdl_rules.specs.inner.Headed.{no_header};

    /// By what the names in the headers of the text mean, and what its declarations descend from.
    pub fn new(headers: &'t [Header], lineage: &'t Lineage<'t, 'd>) -> Text<'t, 'd>
        requires { headers.now ≡ of.headers (text_of lineage.now) }
        ensures { judged result ≡ text_of lineage.now }
    {
        Text { headers, lineage }
    }

    pub(crate) fn lineage(&self) -> &'t Lineage<'t, 'd>
        ensures { text_of result.now ≡ judged self.now }
    {
        self.lineage
    }

    pub(crate) fn directory(&self) -> &'t Directory<'d>
        ensures { all_of result.now ≡ judged self.now }
    {
        self.lineage.directory()
    }

    /// How many declarations there are.
    pub(crate) fn len(&self) -> usize
        ensures { result ≡ length (judged self.now) }
    {
        self.directory().len()
    }

    /// What a declaration declares.
    pub(crate) fn what(&self, number: DeclarationNo) -> What<'d>
        ensures { what_view result ≡ (at (judged self.now) number).what }
    {
        self.directory().what(number)
    }

    /// Where the name of a declaration stands.
    pub(crate) fn place(&self, number: DeclarationNo) -> Place
        ensures { result ≡ (at (judged self.now) number).place }
    {
        self.directory().place(number)
    }

    fn header(&self, number: DeclarationNo) -> Option<&'t Header>
        ensures some { IfSome result (λ h. h.now ≡ header (judged self.now) number) }
        ensures none { IfNone result (header (judged self.now) number ≡ no_header) }
    {
        match self.headers.get(number.index()) {
            Some(header) => Some(header),
            None => None,
        }
    }

    /// The names behind `:`.
    pub(crate) fn bases(&self, number: DeclarationNo) -> &'t [Use]
        ensures { result.now ≡ (header (judged self.now) number).bases }
    {
        match self.header(number) {
            Some(header) => header.bases(),
            None => &[],
        }
    }

    /// The names behind `implements`.
    pub(crate) fn implemented(&self, number: DeclarationNo) -> &'t [Use]
        ensures { result.now ≡ (header (judged self.now) number).implemented }
    {
        match self.header(number) {
            Some(header) => header.implemented(),
            None => &[],
        }
    }

    /// The name behind `of`, alone, or none.
    pub(crate) fn managed(&self, number: DeclarationNo) -> &'t [Use]
        ensures { result.now ≡ option_to_list (header (judged self.now) number).managed }
    {
        match self.header(number) {
            Some(header) => match header.managed() {
                Some(used) => slice::from_ref(used),
                None => &[],
            },
            None => &[],
        }
    }

    /// The homes that a catalog provides.
    pub(crate) fn provided(&self, number: DeclarationNo) -> &'t [Use]
        ensures { result.now ≡ (header (judged self.now) number).provided }
    {
        match self.header(number) {
            Some(header) => header.provided(),
            None => &[],
        }
    }
}
