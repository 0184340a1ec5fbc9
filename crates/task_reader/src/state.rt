ghost use Rattle.std.specs.Prelude.{◌≡◌, ◌≤◌, ◌++◌, length, IfOk, OnOk};
ghost use Rattle.task_reader.specs.Program.{code_from, state_of, states_from};
ghost use Rattle.task_reader.specs.Fits.{AreShort, EachIsShort, IsShort, steps_ahead};
ghost use Rattle.task_reader.specs.Parts.{state_at};

use crate::ahead::is_inside;
use crate::instr::{future_places, instr_of};
use crate::positions::Positions;
use std::alloc::{AllocError, Global};
use task_lines::{Item, What};
use task_syntax::{Line, List, Name, State};

/// The instructions up to the end of the state.
fn code_of(alloc: Global, p: &Positions, items: &[Item]) -> Result<List<Line>, AllocError>
    requires short { AreShort p.now }
    requires room { steps_ahead items.now ≤ 64 }
    ensures { IfOk result (λ code. code ≡ code_from p.now 0 items.now) }
{
    let mut code = List::new(alloc);
    'lines: for at in 0..items.len() {
        let item = &items[at];
        let (_, ahead) = items.split_at(at + 1);
        let What::Step { step } = &item.what else {
            return Ok(code);
        };
        let instr = instr_of(alloc, p, at, ahead, step)?;
        code.push(Line {
            line: item.line,
            instr,
        })?;
    }
    Ok(code)
}

fn state_of(
    alloc: Global,
    p: &Positions,
    line: u32,
    name: &Name,
    holds: &[Name],
    settled: &[Name],
    ahead: &[Item],
) -> Result<State, AllocError>
    requires short { AreShort p.now }
    requires room { steps_ahead ahead.now ≤ 64 }
    ensures { IfOk result
        (λ state. state ≡ state_of p.now line name.now holds.now settled.now ahead.now) }
{
    let holds = future_places(alloc, p, holds)?;
    let settled = future_places(alloc, p, settled)?;
    let code = code_of(alloc, p, ahead)?;
    Ok(State {
        line,
        name: name.copy(),
        holds,
        settled,
        code,
    })
}

/// Puts the state of an item behind the others, where it is one.
fn add_state(
    alloc: Global,
    states: &mut List<State>,
    p: &Positions,
    item: &Item,
    ahead: &[Item],
) -> Result<(), AllocError>
    requires short { AreShort p.now }
    requires room { IsShort item.now.what ahead.now }
    ensures { OnOk result (states.new ≡ states.old ++ state_at p.now item.now ahead.now) }
{
    match &item.what {
        What::State {
            name,
            holds,
            settled,
        } => {
            let state = state_of(
                alloc,
                p,
                item.line,
                name,
                holds.as_slice(),
                settled.as_slice(),
                ahead,
            )?;
            states.push(state)
        }
        _ => Ok(()),
    }
}

/// The states up to the end of the kind.
pub fn states_of(alloc: Global, p: &Positions, items: &[Item]) -> Result<List<State>, AllocError>
    requires short { AreShort p.now }
    requires room { EachIsShort items.now }
    ensures { IfOk result (λ states. states ≡ states_from p.now items.now) }
{
    let mut states = List::new(alloc);
    'items: for at in 0..items.len() {
        let item = &items[at];
        let (_, ahead) = items.split_at(at + 1);
        if !is_inside(item) {
            return Ok(states);
        }
        add_state(alloc, &mut states, p, item, ahead)?;
    }
    Ok(states)
}
