ghost use Rattle.std.specs.Prelude.{◌≡◌, ◌≤◌, ◌<◌, length, map};
ghost use Rattle.std.specs.List.{take_while, list_any, filter_map};
ghost use Rattle.task_text.specs.Scan.{is_among};
ghost use Rattle.task_reader.specs.Names.{label_names, state_names, kind_names};
ghost use Rattle.task_reader.specs.Program.{is_label, steps_to};
ghost use Rattle.task_reader.specs.Ahead.{is_step, is_inside, labels, passes_by, begins};

use crate::place::is_same;
use task_lines::{Item, Step, What};
use task_syntax::Name;

/// Whether the step is the label of this name.
fn is_label(name: &Name, step: &Step) -> bool
    ensures { result ≡ is_label name.now step.now }
{
    match step {
        Step::Label { name: other } => is_same(name, other),
        _ => false,
    }
}

fn is_step(item: &Item) -> bool
    ensures { result ≡ is_step item.now }
{
    matches!(item.what, What::Step { .. })
}

pub fn is_inside(item: &Item) -> bool
    ensures { result ≡ is_inside item.now }
{
    !matches!(item.what, What::End)
}

fn labels(name: &Name, item: &Item) -> bool
    ensures { result ≡ labels name.now item.now }
{
    match &item.what {
        What::Step { step } => is_label(name, step),
        _ => false,
    }
}

fn passes_by(name: &Name, item: &Item) -> bool
    ensures { result ≡ passes_by name.now item.now }
{
    match &item.what {
        What::Step { step } => !is_label(name, step),
        _ => false,
    }
}

fn begins(name: &Name, item: &Item) -> bool
    ensures { result ≡ begins name.now item.now }
{
    match &item.what {
        What::State { name: other, .. } => is_same(name, other),
        _ => false,
    }
}

/// Whether a label of this name follows in the state.
pub fn has_label(ahead: &[Item], name: &Name) -> bool
    ensures { result ≡ list_any (labels name.now) (take_while is_step ahead.now) }
{
    ahead
        .iter()
        .take_while(|item| is_step(item))
        .any(|item| labels(name, item))
}

/// Whether a state of this name follows in the kind.
pub fn has_state(ahead: &[Item], name: &Name) -> bool
    ensures { result ≡ list_any (begins name.now) (take_while is_inside ahead.now) }
{
    ahead
        .iter()
        .take_while(|item| is_inside(item))
        .any(|item| begins(name, item))
}

/// How many instructions stand before the label of this name.
pub fn steps_to(ahead: &[Item], name: &Name) -> usize
    ensures exact { result ≡ length (take_while (passes_by name.now) ahead.now) }
{
    ahead
        .iter()
        .take_while(|item| passes_by(name, item))
        .count()
}
