ghost use Rattle.std.specs.Prelude.{◌≡◌, ◌++◌, IfOk, OnOk};
ghost use Rattle.task_reader.specs.Names.{kind_names, state_names};
ghost use Rattle.task_reader.specs.Program.{variables_from};
ghost use Rattle.task_reader.specs.Parts.{kind_name_at, state_name_at, root_name_at};

use crate::ahead::is_inside;
use std::alloc::{AllocError, Global};
use task_lines::{Item, What};
use task_syntax::{List, Name, Variable};

/// Copies names behind others.
pub fn add_names(to: &mut List<Name>, names: &[Name]) -> Result<(), AllocError>
    ensures { OnOk result (to.new ≡ to.old ++ names.now) }
{
    for name in names {
        to.push(name.copy())?;
    }
    Ok(())
}

/// Copies variables behind others.
fn add_variables(to: &mut List<Variable>, variables: &[Variable]) -> Result<(), AllocError>
    ensures { OnOk result (to.new ≡ to.old ++ variables.now) }
{
    for variable in variables {
        let name = variable.name.copy();
        let sort = variable.sort;
        to.push(Variable { name, sort })?;
    }
    Ok(())
}

fn add_kind_name(names: &mut List<Name>, item: &Item) -> Result<(), AllocError>
    ensures { OnOk result (names.new ≡ names.old ++ kind_name_at item.now) }
{
    match &item.what {
        What::Kind { name, .. } => names.push(name.copy()),
        _ => Ok(()),
    }
}

/// The names of all kinds.
pub fn kind_names(alloc: Global, items: &[Item]) -> Result<List<Name>, AllocError>
    ensures { IfOk result (λ names. names ≡ kind_names items.now) }
{
    let mut names = List::new(alloc);
    'items: for at in 0..items.len() {
        let item = &items[at];
        add_kind_name(&mut names, item)?;
    }
    Ok(names)
}

fn add_state_name(names: &mut List<Name>, item: &Item) -> Result<(), AllocError>
    ensures { OnOk result (names.new ≡ names.old ++ state_name_at item.now) }
{
    match &item.what {
        What::State { name, .. } => names.push(name.copy()),
        _ => Ok(()),
    }
}

/// The names of the states that follow in a kind.
pub fn state_names(alloc: Global, items: &[Item]) -> Result<List<Name>, AllocError>
    ensures { IfOk result (λ names. names ≡ state_names items.now) }
{
    let mut names = List::new(alloc);
    'items: for at in 0..items.len() {
        let item = &items[at];
        if !is_inside(item) {
            return Ok(names);
        }
        add_state_name(&mut names, item)?;
    }
    Ok(names)
}

/// Puts the name of a root behind the others, where the item is one.
pub fn add_root_name(names: &mut List<Name>, item: &Item) -> Result<(), AllocError>
    ensures { OnOk result (names.new ≡ names.old ++ root_name_at item.now) }
{
    match &item.what {
        What::Root { name, .. } => names.push(name.copy()),
        _ => Ok(()),
    }
}

/// The arguments, and the variables of the lines that follow.
pub fn variables_of(
    alloc: Global,
    arguments: &[Variable],
    items: &[Item],
) -> Result<List<Variable>, AllocError>
    ensures { IfOk result (λ variables. variables ≡ arguments.now ++ variables_from items.now) }
{
    let mut variables = List::new(alloc);
    add_variables(&mut variables, arguments)?;
    'lines: for at in 0..items.len() {
        let item = &items[at];
        let What::Var { variables: more } = &item.what else {
            return Ok(variables);
        };
        add_variables(&mut variables, more.as_slice())?;
    }
    Ok(variables)
}
