ghost use Rattle.std.specs.Prelude.{◌≡◌, ◌≤◌, ◌<◌, length, IfOk};
ghost use Rattle.std.specs.List.{filter_map};
ghost use Rattle.task_text.specs.Fault.{Gives};
ghost use Rattle.task_lines.specs.Scope.{first_scope, after};
ghost use Rattle.task_reader.specs.Names.{kind_names, known_among, line_known, names_known};
ghost use Rattle.task_reader.specs.Fits.{IsShort, EachIsShort};

use crate::uses;
use std::alloc::Global;
use task_lines::{Item, Scope};
use task_syntax::Name;
use task_text::TextError;

/// Looks up the names that an item uses, and goes on behind it.
fn item_known(
    alloc: Global,
    kinds: &[Name],
    scope: &mut Scope,
    ahead: &[Item],
    item: &Item,
) -> Result<(), TextError>
    requires short { IsShort item.now.what ahead.now }
    requires steps { scope.old.steps < usize.MAX }
    ensures known { Gives (λ u. u) result
        (line_known (known_among kinds.now scope.old ahead.now) item.now.line item.now.what) }
    ensures scope { IfOk result (λ _. scope.new ≡ after scope.old item.now.what) }
{
    uses::line_known(kinds, scope, ahead, item.line, &item.what)?;
    scope.pass(alloc, &item.what)?;
    Ok(())
}

/// Looks up the names that the items use, where the kinds have these names.
pub fn names_known(alloc: Global, kinds: &[Name], items: &[Item]) -> Result<(), TextError>
    requires names { kinds.now ≡ kind_names items.now }
    requires short { EachIsShort items.now }
    ensures { Gives (λ u. u) result (names_known items.now first_scope items.now) }
{
    let mut scope = Scope::first(alloc);
    'items: for at in 0..items.len() {
        let item = &items[at];
        let (_, ahead) = items.split_at(at + 1);
        item_known(alloc, kinds, &mut scope, ahead, item)?;
    }
    Ok(())
}
