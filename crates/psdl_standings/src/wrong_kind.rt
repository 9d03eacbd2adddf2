// C4: names that mean another kind than their place needs.
use crate::need::Need;
use crate::numbered_standing::numbered_standing_at;
use crate::walk::Walk;
use psdl_directory::DeclarationNo;

impl<'b, 'a> Walk<'b, 'a> {
    ghost use Rattle.std.specs.Prelude.{◌≡◌};
    ghost use Rattle.psdl_directory.specs.Lookup.{at};
    ghost use Rattle.psdl_standings.specs.Standings.{standing};
    ghost use Rattle.psdl_standings.specs.Uses as of;
    ghost use Rattle.psdl_standings.specs.inner.Walked.{text_in, done_in};

    /// Whether a declaration is what a place needs.
    pub(crate) fn meets(&self, need: Need, meant: DeclarationNo) -> bool
        ensures { result ≡ of.meets need (at (text_in self.now) meant).what (standing (done_in self.now) meant) }
    {
        let what = self.directory.what(meant);
        let told = numbered_standing_at(&self.told, meant.index());
        match need {
            Need::OfType => what.is_type(),
            Need::OfConstantType => self.types.may_be_constant(told),
            Need::OfNumber => told.is_number(),
            Need::OfStorageType => what.is_storage_type(),
            Need::OfAbstractType => what.is_abstract_type(),
            Need::OfConcreteType => what.is_concrete_type(),
            Need::OfAbstractHome => what.is_abstract_home(),
            Need::OfConcreteHome => what.is_concrete_home(),
        }
    }
}
