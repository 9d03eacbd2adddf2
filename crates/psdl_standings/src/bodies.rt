// States and operations in the walk of bodies.
ghost use Rattle.std.specs.Prelude.{◌≡◌, ◌++◌, map, OnOk};
ghost use Rattle.psdl_tree.specs.Views.{identifiers_view};
ghost use Rattle.psdl_directory.specs.Declarations.{all_identifiers};

use crate::need::Need;
use crate::spot::Spot;
use crate::state_entry::StateEntry;
use crate::walk::Walk;
use psdl_tree::{
    AbstractHomeMember, AbstractTypeMember, Identifiers, Name, Operation, OperationResult,
    Parameter, Parameters, State, StateType,
};
use pss_base::NoMemory;

// Adds the type of a state once for each of its identifiers.
fn add_entries(
    kept: &mut Vec<StateEntry>,
    entry: StateEntry,
    names: &Identifiers,
) -> Result<(), NoMemory>
    ensures { OnOk result (kept.new.items ≡ kept.old.items ++ map (λ i. entry) (all_identifiers (identifiers_view names.now))) }
{
    kept.push(entry)?;
    for _name in &names.others {
        kept.push(entry)?;
    }
    Ok(())
}

impl<'b, 'a> Walk<'b, 'a> {
    ghost use Rattle.std.specs.Prelude.{length, map, option_map, IfOk, OnOk};
    ghost use Rattle.std.specs.List.{flat_map};
    ghost use Rattle.psdl_tree.specs.Views.{state_view, state_type_view, operation_result_view, parameter_view, parameters_view, operation_view, abstract_type_member_view, abstract_home_member_view};
    ghost use Rattle.psdl_directory.specs.Parts as parts;
    ghost use Rattle.psdl_standings.specs.Uses as of;
    ghost use Rattle.psdl_standings.specs.States.{types_of_state, AreKeptBelow};
    ghost use Rattle.psdl_standings.specs.inner.Entries.{IsEntry, Notes, AddsStates};
    ghost use Rattle.psdl_standings.specs.inner.Walked.{text_in};

    /// The type of a state, of a parameter or of what an operation returns.
    pub(crate) fn state_type(
        &mut self,
        spot: Spot,
        state_type: &StateType,
    ) -> Result<StateEntry, NoMemory>
        ensures noted { OnOk result (Notes self.old self.new spot (of.in_state_type spot.limit (state_type_view state_type.now)) (of.state_bounds spot.limit (state_type_view state_type.now))) }
        ensures entry { IfOk result (IsEntry self.old self.new spot (state_type_view state_type.now)) }
    {
        match state_type {
            StateType::Plain(plain) => Ok(StateEntry::Plain(self.plain(spot, plain)?)),
            StateType::Reference(name) => Ok(StateEntry::Reference(self.defined(
                spot,
                Need::OfStorageType,
                name,
            )?)),
        }
    }

    fn state(
        &mut self,
        spot: Spot,
        state: &State,
        kept: &mut Vec<StateEntry>,
    ) -> Result<(), NoMemory>
        requires { AreKeptBelow (length self.old.types) (length (text_in self.old)) kept.old.items }
        ensures { OnOk result (AddsStates self.old self.new spot (of.in_state_type spot.limit (state_view state.now).state_type) (of.state_bounds spot.limit (state_view state.now).state_type) (types_of_state (state_view state.now)) kept.old.items kept.new.items) }
    {
        let entry = self.state_type(spot, &state.state_type)?;
        add_entries(kept, entry, &state.names)?;
        Ok(())
    }

    /// The states of a concrete type.
    pub(crate) fn states(
        &mut self,
        spot: Spot,
        states: &[State],
        kept: &mut Vec<StateEntry>,
    ) -> Result<(), NoMemory>
        requires { AreKeptBelow (length self.old.types) (length (text_in self.old)) kept.old.items }
        ensures { OnOk result (AddsStates self.old self.new spot (flat_map (λ s. of.in_state_type spot.limit s.state_type) (map state_view states.now)) (flat_map (λ s. of.state_bounds spot.limit s.state_type) (map state_view states.now)) (flat_map types_of_state (map state_view states.now)) kept.old.items kept.new.items) }
    {
        for state in states {
            self.state(spot, state, kept)?;
        }
        Ok(())
    }

    fn type_state(
        &mut self,
        spot: Spot,
        member: &AbstractTypeMember,
        kept: &mut Vec<StateEntry>,
    ) -> Result<(), NoMemory>
        requires { AreKeptBelow (length self.old.types) (length (text_in self.old)) kept.old.items }
        ensures { OnOk result (AddsStates self.old self.new spot (flat_map (λ s. of.in_state_type spot.limit s.state_type) (parts.state_of (abstract_type_member_view member.now))) (flat_map (λ s. of.state_bounds spot.limit s.state_type) (parts.state_of (abstract_type_member_view member.now))) (flat_map types_of_state (parts.state_of (abstract_type_member_view member.now))) kept.old.items kept.new.items) }
    {
        match member {
            AbstractTypeMember::State(state) => {
                self.state(spot, state, kept)?;
                Ok(())
            }
            AbstractTypeMember::Operation(_) => Ok(()),
        }
    }

    /// The states of an abstract type.
    pub(crate) fn type_states(
        &mut self,
        spot: Spot,
        members: &[AbstractTypeMember],
        kept: &mut Vec<StateEntry>,
    ) -> Result<(), NoMemory>
        requires { AreKeptBelow (length self.old.types) (length (text_in self.old)) kept.old.items }
        ensures { OnOk result (AddsStates self.old self.new spot (flat_map (λ m. flat_map (λ s. of.in_state_type spot.limit s.state_type) (parts.state_of m)) (map abstract_type_member_view members.now)) (flat_map (λ m. flat_map (λ s. of.state_bounds spot.limit s.state_type) (parts.state_of m)) (map abstract_type_member_view members.now)) (flat_map (λ m. flat_map types_of_state (parts.state_of m)) (map abstract_type_member_view members.now)) kept.old.items kept.new.items) }
    {
        for member in members {
            self.type_state(spot, member, kept)?;
        }
        Ok(())
    }

    fn returned(&mut self, spot: Spot, returned: &OperationResult) -> Result<(), NoMemory>
        ensures { OnOk result (Notes self.old self.new spot (of.in_result spot.limit (operation_result_view returned.now)) (of.result_bounds spot.limit (operation_result_view returned.now))) }
    {
        match returned {
            OperationResult::Void => Ok(()),
            OperationResult::State(state_type) => {
                self.state_type(spot, state_type)?;
                Ok(())
            }
        }
    }

    fn each_parameter(&mut self, spot: Spot, parameters: &[Parameter]) -> Result<(), NoMemory>
        ensures { OnOk result (Notes self.old self.new spot (flat_map (λ p. of.in_state_type spot.limit p.parameter_type) (map parameter_view parameters.now)) (flat_map (λ p. of.state_bounds spot.limit p.parameter_type) (map parameter_view parameters.now))) }
    {
        for parameter in parameters {
            self.state_type(spot, &parameter.parameter_type)?;
        }
        Ok(())
    }

    fn parameters(&mut self, spot: Spot, parameters: &Option<Parameters>) -> Result<(), NoMemory>
        ensures { OnOk result (Notes self.old self.new spot (flat_map (λ p. of.in_state_type spot.limit p.parameter_type) (parts.all_parameters (option_map parameters_view parameters.now))) (flat_map (λ p. of.state_bounds spot.limit p.parameter_type) (parts.all_parameters (option_map parameters_view parameters.now)))) }
    {
        match parameters {
            Some(parameters) => {
                self.state_type(spot, &parameters.first.parameter_type)?;
                self.each_parameter(spot, &parameters.others)?;
                Ok(())
            }
            None => Ok(()),
        }
    }

    fn operation(&mut self, spot: Spot, operation: &Operation) -> Result<(), NoMemory>
        ensures { OnOk result (Notes self.old self.new spot (of.in_operation spot.limit (operation_view operation.now)) (of.operation_bounds spot.limit (operation_view operation.now))) }
    {
        self.returned(spot, &operation.returned)?;
        self.parameters(spot, &operation.parameters)?;
        Ok(())
    }

    fn type_operation(&mut self, spot: Spot, member: &AbstractTypeMember) -> Result<(), NoMemory>
        ensures { OnOk result (Notes self.old self.new spot (flat_map (of.in_operation spot.limit) (parts.type_operation (abstract_type_member_view member.now))) (flat_map (of.operation_bounds spot.limit) (parts.type_operation (abstract_type_member_view member.now)))) }
    {
        match member {
            AbstractTypeMember::State(_) => Ok(()),
            AbstractTypeMember::Operation(operation) => {
                self.operation(spot, operation)?;
                Ok(())
            }
        }
    }

    /// The operations of an abstract type.
    pub(crate) fn type_operations(
        &mut self,
        spot: Spot,
        members: &[AbstractTypeMember],
    ) -> Result<(), NoMemory>
        ensures { OnOk result (Notes self.old self.new spot (flat_map (λ m. flat_map (of.in_operation spot.limit) (parts.type_operation m)) (map abstract_type_member_view members.now)) (flat_map (λ m. flat_map (of.operation_bounds spot.limit) (parts.type_operation m)) (map abstract_type_member_view members.now))) }
    {
        for member in members {
            self.type_operation(spot, member)?;
        }
        Ok(())
    }

    fn home_operation(&mut self, spot: Spot, member: &AbstractHomeMember) -> Result<(), NoMemory>
        ensures { OnOk result (Notes self.old self.new spot (flat_map (of.in_operation spot.limit) (parts.home_operation (abstract_home_member_view member.now))) (flat_map (of.operation_bounds spot.limit) (parts.home_operation (abstract_home_member_view member.now)))) }
    {
        match member {
            AbstractHomeMember::Operation(operation) => {
                self.operation(spot, operation)?;
                Ok(())
            }
            _ => Ok(()),
        }
    }

    /// The operations of an abstract home.
    pub(crate) fn home_operations(
        &mut self,
        spot: Spot,
        members: &[AbstractHomeMember],
    ) -> Result<(), NoMemory>
        ensures { OnOk result (Notes self.old self.new spot (flat_map (λ m. flat_map (of.in_operation spot.limit) (parts.home_operation m)) (map abstract_home_member_view members.now)) (flat_map (λ m. flat_map (of.operation_bounds spot.limit) (parts.home_operation m)) (map abstract_home_member_view members.now))) }
    {
        for member in members {
            self.home_operation(spot, member)?;
        }
        Ok(())
    }
}
