//! The cursor that goes over the rows of a text.

ghost use Rattle.std.specs.Prelude.{◌≡◌, ◌+◌, ◌^◌, ◌<◌, length, drop};
ghost use Rattle.task_text.specs.Text as spec;
ghost use Rattle.task_text.specs.Cursor.{rows_behind, first_start};

use crate::lines::{code_of, split_line, without_mark};
use crate::words::Words;
use std::marker::Model;

/// The rows of a text that are left, which contracts see as their list. It takes no memory.
#[derive(Drop)]
pub struct Rows<'a> {
    /// How many lines stand before the text that is left.
    passed: u32,
    text: &'a [u8],
}

impl<'a> Model for Rows<'a> {
    ghost use Rattle.std.specs.Prelude.{List, ◌+◌, ◌^◌, ◌<◌, length};
    ghost use Rattle.task_text.specs.Text.{Row};

    ghost Value = { List Row };

    ghost use Rattle.task_text.specs.Cursor.{rows_behind};

    ghost view = { λ rows. rows_behind rows.passed rows.text.now };

    ghost invariant = { λ rows. rows.passed + length rows.text.now < 2 ^ 32 };
}

impl<'a> Rows<'a> {
    /// The rows of a text.
    pub fn new(text: &'a [u8]) -> Rows<'a>
        requires { length text.now < 2 ^ 32 }
        ensures { result ≡ spec.rows_of text.now }
    {
        Rows {
            passed: 0,
            text: without_mark(text),
        }
    }

    /// Takes the next row, and gives the cursor over its words.
    pub fn next_row(&mut self) -> Option<Words<'a>>
        ensures row { result ≡ first_start self.old }
        ensures rest { self.new ≡ drop 1 self.old }
    {
        let (words, passed, text) = next_words(self.passed, self.text);
        self.passed = passed;
        self.text = text;
        words
    }
}

/// The words of the next row, how many lines are passed with it, and the text behind it.
fn next_words(mut passed: u32, mut text: &[u8]) -> (Option<Words<'_>>, u32, &[u8])
    requires { passed + length text.now < 2 ^ 32 }
    ensures row { result.0 ≡ first_start (rows_behind passed text.entry.now) }
    ensures rest { rows_behind result.1 result.2.now ≡ drop 1 (rows_behind passed text.entry.now) }
    ensures counted { result.1 + length result.2.now < 2 ^ 32 }
{
    'lines: while !text.is_empty() {
        let (line, rest) = split_line(text);
        let words = Words::new(passed + 1, code_of(line));
        passed += 1;
        text = rest;
        if !words.is_over() {
            return (Some(words), passed, text);
        }
    }
    (None, passed, text)
}
