// Constants in the walk of bodies.

use crate::alone::text_alone;
use crate::assess::assess;
use crate::assessment::Assessment;
use crate::bound::note_value;
use crate::const_range::note_long;
use crate::need::Need;
use crate::numbered_standing::{NumberedStanding, TypeNo, numbered_standing_at};
use crate::places::expression_place;
use crate::range::Range;
use crate::sight::Sight;
use crate::spot::Spot;
use crate::types::{Class, Node};
use crate::walk::Walk;
use psdl_directory::{CheckFault, CheckKind};
use psdl_tree::{Constant, ConstantType, Expression, Name};
use pss_base::NoMemory;

impl<'b, 'a> Walk<'b, 'a> {
    ghost use Rattle.std.specs.Prelude.{◌≡◌, ◌<◌, ◌≤◌, ◌∷◌, [], true, length, IfOk, OnOk, IfSome};
    ghost use Rattle.std.specs.Option.{option_and_then};
    ghost use Rattle.psdl_tree.specs.Views.{expression_view, name_view, constant_type_view, constant_view};
    ghost use Rattle.psdl_standings.specs.declared.need.Need.TheVariants as needs;
    ghost use Rattle.psdl_standings.specs.Standings.{within, number_by, type_of, constant_type_by, constant_by};
    ghost use Rattle.psdl_standings.specs.Uses as of;
    ghost use Rattle.psdl_standings.specs.inner.Assessments.{seen};
    ghost use Rattle.psdl_standings.specs.inner.Constants.{assessed_in, with_texts, text_noted, number_noted, value_noted, constant_noted};
    ghost use Rattle.psdl_standings.specs.inner.Tellings.{stand, is_there};
    ghost use Rattle.psdl_standings.specs.inner.TypeNodes.{type_at};
    ghost use Rattle.psdl_standings.specs.inner.Walked.{names_in, Goes, Adds};
    ghost use Rattle.psdl_standings.specs.inner.Widths.{range_view};

    // The type of a constant that a name stands for.
    fn constant_named(&mut self, spot: Spot, name: &Name) -> Result<Option<usize>, NoMemory>
        ensures { IfOk result (Adds self.old self.new spot (of.use_of spot.limit needs.OfConstantType (name_view name.now) ∷ []) [] (type_of (names_in self.old spot (name_view name.now)))) }
    {
        match self.meaning(spot, Need::OfConstantType, name)? {
            Some(meant) => Ok(numbered_standing_at(&self.told, meant.index()).type_number()),
            None => Ok(None),
        }
    }

    fn constant_type(
        &mut self,
        spot: Spot,
        constant_type: &ConstantType,
    ) -> Result<Option<usize>, NoMemory>
        ensures { IfOk result (Adds self.old self.new spot (of.in_constant_type spot.limit (constant_type_view constant_type.now)) [] (constant_type_by (names_in self.old spot) (constant_type_view constant_type.now))) }
    {
        match constant_type {
            ConstantType::Integer(integer) => self.add_integer(*integer),
            ConstantType::Octet => self.add(Node::Octet),
            ConstantType::String => self.add_text(Some(0)),
            ConstantType::Name(name) => self.constant_named(spot, name),
        }
    }

    // What an expression comes to, of so many bits.
    fn assessed(
        &mut self,
        spot: Spot,
        width: Option<u32>,
        value: &Expression,
    ) -> Result<Assessment, NoMemory>
        requires { IfSome width (λ bits. bits ≤ 64) }
        ensures goes { Goes self.old self.new }
        ensures noted { OnOk result (self.new.faults ≡ with_texts self.old spot (expression_view value.now)) }
        ensures value { IfOk result (λ a. a ≡ seen (assessed_in self.old spot width (expression_view value.now))) }
    {
        let sight = Sight {
            directory: self.directory,
            told: &self.told,
            limit: spot.limit,
            number: spot.number,
            own: spot.own,
        };
        let assessed = assess(self.alloc, &sight, width, &mut self.faults, value)?;
        Ok(assessed)
    }

    // The value of a constant of that range, where it lies in it.
    fn number(
        &mut self,
        spot: Spot,
        range: Range,
        value: &Expression,
    ) -> Result<Option<i128>, NoMemory>
        requires { IfSome range.width (λ bits. bits ≤ 64) }
        ensures goes { Goes self.old self.new }
        ensures noted { OnOk result (self.new.faults ≡ number_noted self.old spot (range_view range) (expression_view value.now)) }
        ensures value { IfOk result (λ n. n ≡ option_and_then (within (range_view range)) (assessed_in self.old spot range.width (expression_view value.now)).value) }
    {
        let assessed = self.assessed(spot, range.width, value)?;
        note_value(
            &mut self.faults.values,
            range,
            expression_place(value),
            assessed,
        );
        Ok(range.within(assessed.value))
    }

    // The value of a string constant.
    fn text(&mut self, spot: Spot, bound: u128, value: &Expression) -> Result<(), NoMemory>
        ensures goes { Goes self.old self.new }
        ensures noted { OnOk result (self.new.faults ≡ text_noted self.old spot bound (expression_view value.now)) }
    {
        match text_alone(value) {
            Some(text) => note_long(&mut self.faults.values, bound, text),
            None => {
                self.faults.strings.note(CheckFault {
                    place: expression_place(value),
                    kind: CheckKind::WrongKind,
                });
                self.assessed(spot, None, value)?;
            }
        }
        Ok(())
    }

    // What a constant of that type stands for.
    fn valued(
        &mut self,
        spot: Spot,
        number: usize,
        value: &Expression,
    ) -> Result<NumberedStanding, NoMemory>
        requires { number < length self.old.types }
        ensures goes { Goes self.old self.new }
        ensures noted { OnOk result (self.new.faults ≡ value_noted self.old spot (type_at self.old.types number) (expression_view value.now)) }
        ensures there { IfOk result (λ t. is_there (length self.new.types) t ≡ true) }
        ensures told { IfOk result (λ t. stand self.new.types t ≡ number_by (names_in self.old spot) (expression_view value.now) (type_at self.old.types number)) }
    {
        match self.types.class(number) {
            Class::Number(range) => {
                let within = self.number(spot, range, value)?;
                Ok(NumberedStanding::OfNumber(TypeNo { index: number }, within))
            }
            Class::Text(bound) => {
                self.text(spot, bound, value)?;
                Ok(NumberedStanding::Nothing)
            }
            Class::Other => {
                self.assessed(spot, None, value)?;
                Ok(NumberedStanding::Nothing)
            }
        }
    }

    /// What a constant stands for.
    pub(crate) fn constant(
        &mut self,
        spot: Spot,
        constant: &Constant,
    ) -> Result<NumberedStanding, NoMemory>
        ensures goes { OnOk result (Goes self.old self.new) }
        ensures noted { OnOk result (self.new.faults ≡ constant_noted self.old spot (constant_view constant.now)) }
        ensures there { IfOk result (λ t. is_there (length self.new.types) t ≡ true) }
        ensures told { IfOk result (λ t. stand self.new.types t ≡ constant_by (names_in self.old spot) (constant_view constant.now)) }
    {
        match self.constant_type(spot, &constant.constant_type)? {
            Some(number) => {
                let told = self.valued(spot, number, &constant.value)?;
                Ok(told)
            }
            None => {
                self.assessed(spot, None, &constant.value)?;
                Ok(NumberedStanding::Nothing)
            }
        }
    }
}
