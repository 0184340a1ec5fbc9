ghost use Rattle.std.specs.Prelude.{◌≡◌, ◌+◌, ◌<◌, ◌^◌, ◌++◌, ◌∷◌, [], length, OnOk, true, false, IsTrue};
ghost use Rattle.task_lines.specs.Scope as spec;

use crate::item::What;
use crate::step::Step;
use std::alloc::{AllocError, Global};
use task_syntax::{List, Name, Sort, Variable};

/// Where a line stands.
#[derive(Debug, Clone, Copy, PartialEq, Eq)]
pub enum Place {
    /// Outside a kind.
    Outside,
    /// In a kind, before its first state.
    Head,
    /// In a state, where instructions may follow.
    Code,
    /// Behind a `goto`: what follows is not reached from there.
    Jumped,
    /// Behind a `done` or `again`, where the state may end.
    Ended,
}

/// What the lines so far have given: where the next one stands, and the names that are taken there.
#[derive(Debug, Drop)]
pub struct Scope {
    pub place: Place,
    pub kinds: List<Name>,
    pub roots: List<Name>,
    /// The variables of the kind.
    pub variables: List<Variable>,
    /// The states of the kind.
    pub states: List<Name>,
    /// The labels of the state.
    pub labels: List<Name>,
    /// How many instructions the state has.
    pub steps: usize,
}

/// Where the line behind an instruction stands.
fn place_behind(step: &Step) -> Place
    ensures { result ≡ spec.place_behind step.now }
{
    match step {
        Step::Goto { .. } => Place::Jumped,
        Step::Again { .. } | Step::Done { .. } => Place::Ended,
        _ => Place::Code,
    }
}

/// Puts the label of an instruction behind the others, where it has one.
fn add_label(labels: &mut List<Name>, step: &Step) -> Result<(), AllocError>
    ensures { OnOk result (labels.new ≡ spec.labels_behind step.now labels.old) }
{
    match step {
        Step::Label { name } => labels.push(name.copy()),
        _ => Ok(()),
    }
}

fn add_variables(to: &mut List<Variable>, variables: &[Variable]) -> Result<(), AllocError>
    ensures { OnOk result (to.new ≡ to.old ++ variables.now) }
{
    for variable in variables {
        let name = variable.name.copy();
        let sort = variable.sort;
        to.push(Variable { name, sort })?;
    }
    Ok(())
}

impl Scope {
    /// Before the first line behind the header.
    pub fn first(alloc: Global) -> Scope
        ensures { result ≡ spec.first_scope }
    {
        Scope {
            place: Place::Outside,
            kinds: List::new(alloc),
            roots: List::new(alloc),
            variables: List::new(alloc),
            states: List::new(alloc),
            labels: List::new(alloc),
            steps: 0,
        }
    }

    fn begin_kind(
        &mut self,
        alloc: Global,
        name: &Name,
        arguments: &List<Variable>,
    ) -> Result<(), AllocError>
        ensures { OnOk result
            (self.new ≡ record self.old {
              place = Place.Head;
              kinds = self.old.kinds ++ name.now ∷ [];
              variables = arguments.now;
              states = [];
              labels = [];
              steps = 0;
            }) }
    {
        self.kinds.push(name.copy())?;
        let mut variables = List::new(alloc);
        add_variables(&mut variables, arguments.as_slice())?;
        self.place = Place::Head;
        self.variables = variables;
        self.states = List::new(alloc);
        self.labels = List::new(alloc);
        self.steps = 0;
        Ok(())
    }

    fn begin_state(&mut self, alloc: Global, name: &Name) -> Result<(), AllocError>
        ensures { OnOk result
            (self.new ≡ record self.old {
              place = Place.Code;
              states = self.old.states ++ name.now ∷ [];
              labels = [];
              steps = 0;
            }) }
    {
        self.states.push(name.copy())?;
        self.place = Place::Code;
        self.labels = List::new(alloc);
        self.steps = 0;
        Ok(())
    }

    fn pass_step(&mut self, step: &Step) -> Result<(), AllocError>
        requires { self.old.steps < usize.MAX }
        ensures { OnOk result
            (self.new ≡ record self.old {
              place = spec.place_behind step.now;
              labels = spec.labels_behind step.now self.old.labels;
              steps = self.old.steps + 1;
            }) }
    {
        add_label(&mut self.labels, step)?;
        self.place = place_behind(step);
        self.steps += 1;
        Ok(())
    }

    /// Goes on behind a line.
    pub fn pass(&mut self, alloc: Global, what: &What) -> Result<(), AllocError>
        requires { self.old.steps < usize.MAX }
        ensures { OnOk result (self.new ≡ spec.after self.old what.now) }
    {
        match what {
            What::Kind { name, arguments } => self.begin_kind(alloc, name, arguments),
            What::Var { variables } => add_variables(&mut self.variables, variables.as_slice()),
            What::State { name, .. } => self.begin_state(alloc, name),
            What::Step { step } => self.pass_step(step),
            What::End => {
                self.place = Place::Outside;
                Ok(())
            }
            What::Root { name, .. } => self.roots.push(name.copy()),
        }
    }
}

fn same_sort(one: Sort, other: Sort) -> bool
    ensures { result ≡ spec.same_sort one other }
{
    matches!(
        (one, other),
        (Sort::Number, Sort::Number) | (Sort::Future, Sort::Future)
    )
}

/// Whether one of the variables has this sort and name.
pub(crate) fn has_variable(variables: &[Variable], sort: Sort, name: &[u8]) -> bool
    ensures { result ≡ spec.has_variable variables.now sort name.now }
{
    variables.iter().any(|variable| same_sort(sort, variable.sort)
        && name == variable.name.as_bytes())
}
