//! The items of a text.

ghost use Rattle.std.specs.Prelude.{◌≡◌, ◌≢◌, ◌+◌, ◌<◌, ◌^◌, Ok, Err};
ghost use Rattle.std.specs.Prelude.{length, drop, IfOk, MatchResult};
ghost use Rattle.task_text.specs.Fault.{Gives, fault_at};
ghost use Rattle.task_lines.specs.Scope.{first_scope, after};
ghost use Rattle.task_text.specs.Scan.{Scans, and_then, ended, whole};
ghost use Rattle.task_lines.specs.Line as line;
ghost use Rattle.task_lines.specs.Reading as spec;

use crate::item::Item;
use crate::line::header_line;
use crate::row::line_of;
use crate::scope::{Place, Scope};
use std::alloc::Global;
use task_syntax::List;
use task_text::{Cause, Fault, Rows, TextError, Words, count_lines};

/// The header, and nothing behind it.
#[tactic(auto, unfolding(task_text::specs::Scan::need))]
fn whole_header(words: &mut Words<'_>) -> Result<(), Fault>
    ensures { Scans (and_then (line.header_line words.old) ended) result words.new }
{
    header_line(words)?;
    words.ended()
}

/// The header in a row of which no word is taken yet, and nothing behind it.
#[tactic(auto, using(crate::proofs::Starts::from_start), unfolding(task_text::specs::Scan::whole))]
fn header_row(words: &mut Words<'_>) -> Result<(), Fault>
    requires { words.old.word ≡ 1 }
    ensures { result
        ≡ whole line.header_line (record { line = words.old.line; words = words.old.left }) }
{
    whole_header(words)
}

/// The header, behind which the rows are left.
#[tactic(auto, unfolding(crate::specs::Reading::rows_behind_header))]
fn take_header(rows: &mut Rows<'_>) -> Result<(), Fault>
    ensures read { MatchResult result (λ _. spec.rows_behind_header rows.old ≡ Ok rows.new)
        (λ fault. spec.rows_behind_header rows.old ≡ Err fault) }
    ensures rest { rows.new ≡ drop 1 rows.old }
{
    let Some(mut words) = rows.next_row() else {
        return Err(Fault {
            cause: Cause::NoHeader,
            line: 1,
            word: 0,
        });
    };
    words.check_text()?;
    header_row(&mut words)
}

/// The number of the line of a row.
#[tactic(auto, unfolding(task_text::specs::Scan::fault_here))]
fn line_number(words: &Words<'_>) -> u32
    ensures { result ≡ words.now.line }
{
    words.fault(Cause::NoEnd).line
}

/// The item of a row, of which no word is taken yet, and the scope behind it.
fn next_item(alloc: Global, scope: &mut Scope, words: &mut Words<'_>) -> Result<Item, TextError>
    requires start { words.old.word ≡ 1 }
    requires steps { scope.old.steps < usize.MAX }
    ensures what { Gives (λ (item : Item). item.what) result
        (spec.line_of scope.old (record { line = words.old.line; words = words.old.left })) }
    ensures line { IfOk result (λ item. item.line ≡ words.old.line) }
    ensures scope { IfOk result (λ item. scope.new ≡ after scope.old item.what) }
{
    let line = line_number(words);
    let what = line_of(alloc, scope, words)?;
    scope.pass(alloc, &what)?;
    Ok(Item { line, what })
}

/// No kind is open at the end of a text that has `last` lines.
fn must_be_closed(place: Place, last: u32) -> Result<(), Fault>
    ensures { MatchResult result (λ _. place ≡ Place.Outside)
        (λ fault. (place ≢ Place.Outside) × fault ≡ fault_at Cause.NoEnd last 0) }
{
    match place {
        Place::Outside => Ok(()),
        _ => Err(Fault {
            cause: Cause::NoEnd,
            line: last,
            word: 0,
        }),
    }
}

/// The items of the rows that are left of a text that has `last` lines.
fn items_from(alloc: Global, last: u32, rows: &mut Rows<'_>) -> Result<List<Item>, TextError>
    requires { length rows.old < 2 ^ 32 }
    ensures { Gives (λ items. items) result (spec.items_from last first_scope rows.old) }
{
    let mut scope = Scope::first(alloc);
    let mut items = List::new(alloc);
    'rows: while let Some(mut words) = rows.next_row() {
        items.push(next_item(alloc, &mut scope, &mut words)?)?;
    }
    must_be_closed(scope.place, last)?;
    Ok(items)
}

/// The items of a text, or its first fault but an unknown name.
#[tactic(auto, using(crate::proofs::Starts::few_rows), unfolding(crate::specs::Reading::items_of))]
pub fn items_of(alloc: Global, text: &[u8]) -> Result<List<Item>, TextError>
    requires { length text.now < 2 ^ 32 }
    ensures { Gives (λ items. items) result (spec.items_of text.now) }
{
    let mut rows = Rows::new(text);
    take_header(&mut rows)?;
    items_from(alloc, count_lines(text), &mut rows)
}
