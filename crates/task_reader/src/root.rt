ghost use Rattle.std.specs.Prelude.{◌≡◌, ◌≤◌, ◌++◌, [], length, map, option_map, IfOk, OnOk};
ghost use Rattle.task_reader.specs.Program.{place_of, root_argument_of, root_of, roots_from};
ghost use Rattle.task_reader.specs.Fits.{root_names};
ghost use Rattle.task_reader.specs.Parts.{root_at};

use crate::lists::add_root_name;
use crate::place::place_of;
use std::alloc::{AllocError, Global};
use task_lines::{Item, RootTerm, What};
use task_syntax::{List, Name, Root, RootArgument};

fn root_place(earlier: &[Name], name: &Name) -> u8
    requires { length earlier.now ≤ 16 }
    ensures { result ≡ place_of earlier.now name.now }
{
    place_of(earlier, name) as u8
}

fn kind_place(kinds: &[Name], name: &Name) -> u16
    requires { length kinds.now ≤ 64 }
    ensures { result ≡ place_of kinds.now name.now }
{
    place_of(kinds, name) as u16
}

fn root_argument_of(earlier: &[Name], term: &RootTerm) -> RootArgument
    requires { length earlier.now ≤ 16 }
    ensures { result ≡ root_argument_of earlier.now term.now }
{
    match term {
        RootTerm::Number(n) => RootArgument::Number(*n),
        RootTerm::Root(name) => RootArgument::Root(root_place(earlier, name)),
    }
}

fn root_arguments_of(
    alloc: Global,
    earlier: &[Name],
    arguments: &[RootTerm],
) -> Result<List<RootArgument>, AllocError>
    requires { length earlier.now ≤ 16 }
    ensures { IfOk result (λ places. places ≡ map (root_argument_of earlier.now) arguments.now) }
{
    let mut places = List::new(alloc);
    for term in arguments {
        places.push(root_argument_of(earlier, term))?;
    }
    Ok(places)
}

fn behind_place(earlier: &[Name], behind: &Option<Name>) -> Option<u8>
    requires { length earlier.now ≤ 16 }
    ensures { result ≡ option_map (place_of earlier.now) behind.now }
{
    match behind {
        Some(name) => Some(root_place(earlier, name)),
        None => None,
    }
}

/// Puts the root of an item behind the others, where it is one. The earlier roots have these names.
#[tactic(auto, unfolding(crate::specs::Program::root_of))]
fn add_root(
    alloc: Global,
    to: &mut List<Root>,
    kinds: &[Name],
    earlier: &[Name],
    item: &Item,
) -> Result<(), AllocError>
    requires names { length kinds.now ≤ 64 }
    requires short { length earlier.now ≤ 16 }
    ensures { OnOk result (to.new ≡ to.old ++ root_at kinds.now earlier.now item.now) }
{
    match &item.what {
        What::Root {
            name,
            kind,
            arguments,
            behind,
            priority,
        } => {
            let arguments = root_arguments_of(alloc, earlier, arguments.as_slice())?;
            to.push(Root {
                line: item.line,
                name: name.copy(),
                kind: kind_place(kinds, kind),
                arguments,
                behind: behind_place(earlier, behind),
                priority: *priority,
            })
        }
        _ => Ok(()),
    }
}

/// The roots of the items, where the kinds have these names.
pub fn roots_of(alloc: Global, kinds: &[Name], items: &[Item]) -> Result<List<Root>, AllocError>
    requires names { length kinds.now ≤ 64 }
    requires roots { length (root_names items.now) ≤ 16 }
    ensures { IfOk result (λ roots. roots ≡ roots_from kinds.now [] items.now) }
{
    let mut roots = List::new(alloc);
    let mut earlier = List::new(alloc);
    'items: for at in 0..items.len() {
        let item = &items[at];
        add_root(alloc, &mut roots, kinds, earlier.as_slice(), item)?;
        add_root_name(&mut earlier, item)?;
    }
    Ok(roots)
}
