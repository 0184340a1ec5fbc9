ghost use Rattle.std.specs.Prelude.{◌≡◌, ◌≤◌, ◌++◌, length, IfOk, OnOk};
ghost use Rattle.task_lines.specs.declared.item.What.TheVariants as what;
ghost use Rattle.task_reader.specs.Names.{state_names};
ghost use Rattle.task_reader.specs.Program.{variables_from, kind_of, kinds_from};
ghost use Rattle.task_reader.specs.Fits.{EachIsShort, IsShort};
ghost use Rattle.task_reader.specs.Parts.{kind_at};

use crate::lists::{add_names, state_names, variables_of};
use crate::positions::Positions;
use crate::state::states_of;
use std::alloc::{AllocError, Global};
use task_lines::{Item, What};
use task_syntax::{Kind, List, Name, Variable};

/// The names that have positions in a kind.
fn positions_of(
    alloc: Global,
    kinds: &[Name],
    arguments: &[Variable],
    ahead: &[Item],
) -> Result<Positions, AllocError>
    ensures { IfOk result
        (λ p. p ≡ record {
          kinds = kinds.now;
          variables = arguments.now ++ variables_from ahead.now;
          states = state_names ahead.now;
        }) }
{
    let mut copies = List::new(alloc);
    add_names(&mut copies, kinds)?;
    let variables = variables_of(alloc, arguments, ahead)?;
    let states = state_names(alloc, ahead)?;
    Ok(Positions {
        kinds: copies,
        variables,
        states,
    })
}

#[tactic(auto, unfolding(crate::specs::Program::kind_of))]
fn kind_of(
    alloc: Global,
    kinds: &[Name],
    line: u32,
    name: &Name,
    arguments: &[Variable],
    ahead: &[Item],
) -> Result<Kind, AllocError>
    requires names { length kinds.now ≤ 64 }
    requires few { length arguments.now ≤ 16 }
    requires variables { length (arguments.now ++ variables_from ahead.now) ≤ 255 }
    requires states { length (state_names ahead.now) ≤ 32 }
    requires each { EachIsShort ahead.now }
    ensures { IfOk result (λ kind. kind ≡ kind_of kinds.now line name.now arguments.now ahead.now) }
{
    let positions = positions_of(alloc, kinds, arguments, ahead)?;
    let states = states_of(alloc, &positions, ahead)?;
    let Positions { variables, .. } = positions;
    Ok(Kind {
        line,
        name: name.copy(),
        arguments: arguments.len() as u16,
        variables,
        states,
    })
}

/// Puts the kind of an item behind the others, where it is one.
fn add_kind(
    alloc: Global,
    to: &mut List<Kind>,
    kinds: &[Name],
    item: &Item,
    ahead: &[Item],
) -> Result<(), AllocError>
    requires names { length kinds.now ≤ 64 }
    requires short { IsShort item.now.what ahead.now }
    requires each { EachIsShort ahead.now }
    ensures { OnOk result (to.new ≡ to.old ++ kind_at kinds.now item.now ahead.now) }
{
    match &item.what {
        What::Kind { name, arguments } => {
            let kind = kind_of(alloc, kinds, item.line, name, arguments.as_slice(), ahead)?;
            to.push(kind)
        }
        _ => Ok(()),
    }
}

/// The kinds of the items, where these are their names.
pub fn kinds_of(alloc: Global, kinds: &[Name], items: &[Item]) -> Result<List<Kind>, AllocError>
    requires names { length kinds.now ≤ 64 }
    requires each { EachIsShort items.now }
    ensures { IfOk result (λ read. read ≡ kinds_from kinds.now items.now) }
{
    let mut read = List::new(alloc);
    'items: for at in 0..items.len() {
        let item = &items[at];
        let (_, ahead) = items.split_at(at + 1);
        add_kind(alloc, &mut read, kinds, item, ahead)?;
    }
    Ok(read)
}
