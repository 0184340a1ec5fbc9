//! The cursor that reads the words of a row, from left to right.

ghost use Rattle.std.specs.Prelude.{◌≡◌, ◌+◌, ◌^◌, ◌<◌, length, OnErr};
ghost use Rattle.task_text.specs.Text.{words_of};
ghost use Rattle.task_text.specs.Scan as spec;
ghost use Rattle.task_text.specs.Scan.{Scans};

use crate::fault::{Cause, Fault};
use crate::number::number_of;
use crate::split::split_word;
use crate::word::{is_among, is_future, is_missing, is_name, is_text};
use std::marker::Model;
use task_syntax::Name;

/// A place among the words of a row, which contracts see as a `Scan`. It takes no memory.
#[derive(Drop)]
pub struct Words<'a> {
    line: u32,
    word: u32,
    /// The next word, which is empty where none is left, and the bytes behind it.
    front: &'a [u8],
    rest: &'a [u8],
}

impl<'a> Model for Words<'a> {
    ghost use Rattle.task_text.specs.Scan.{Scan, scan_code};

    ghost Value = { Scan };

    ghost coded = { scan_code };

    ghost use Rattle.task_text.specs.Cursor.{scan_of, IsCounted};

    ghost view = { scan_of };

    ghost invariant = { IsCounted };
}

impl<'a> Words<'a> {
    ghost use Rattle.task_text.specs.Cursor.{is_over};

    /// The words of a line, whose comment is cut off.
    #[tactic(auto, using(crate::proofs::Cutting::cutting))]
    pub fn new(line: u32, code: &'a [u8]) -> Words<'a>
        requires { length code.now < 2 ^ 32 }
        ensures { result ≡ spec.start_of (record { line = line; words = words_of code.now }) }
    {
        let (front, rest) = split_word(code);
        Words {
            line,
            word: 1,
            front,
            rest,
        }
    }

    /// The next word, which is empty where none is left.
    #[tactic(auto, using(crate::proofs::Cutting::cutting), unfolding(crate::specs::Scan::seen))]
    pub fn peek(&self) -> &'a [u8]
        ensures { result.now ≡ spec.seen self.now }
    {
        self.front
    }

    /// A fault at the next word.
    #[tactic(auto, unfolding(crate::specs::Scan::fault_here))]
    pub fn fault(&self, cause: Cause) -> Fault
        ensures { result ≡ spec.fault_here cause self.now }
    {
        Fault {
            cause,
            line: self.line,
            word: self.word,
        }
    }

    /// Takes the next word, where one is left.
    #[tactic(auto, using(crate::proofs::Cutting::cutting), unfolding(crate::specs::Scan::seen, crate::specs::Scan::moved))]
    pub fn take_word(&mut self) -> &'a [u8]
        ensures word { result.now ≡ spec.seen self.old }
        ensures next { self.new ≡ spec.moved self.old }
    {
        let word = self.front;
        if !word.is_empty() {
            let (front, rest) = split_word(self.rest);
            self.word += 1;
            self.front = front;
            self.rest = rest;
        }
        word
    }

    /// Whether the next word passes a test, or is at fault.
    #[tactic(auto, unfolding(crate::specs::Scan::need))]
    pub fn need(&self, passes: bool, cause: Cause) -> Result<(), Fault>
        ensures { Scans (spec.need (λ _. passes) cause self.now) result self.now }
    {
        if passes {
            Ok(())
        } else {
            Err(self.fault(cause))
        }
    }

    /// Whether one more of `count` things is within the limit, or the next word is at fault.
    #[tactic(auto, unfolding(crate::specs::Scan::room))]
    pub fn room(&self, count: usize, limit: usize) -> Result<(), Fault>
        ensures { Scans (spec.room count limit self.now) result self.now }
    {
        if count < limit {
            Ok(())
        } else {
            Err(self.fault(Cause::TooMany))
        }
    }

    /// Takes this very word.
    #[tactic(auto, unfolding(crate::specs::Scan::fixed, crate::specs::Scan::need))]
    pub fn fixed(&mut self, word: &[u8]) -> Result<(), Fault>
        ensures read { Scans (spec.fixed word.now self.old) result self.new }
        ensures unchanged { OnErr result (self.new ≡ self.old) }
    {
        self.need(word == self.peek(), Cause::UnknownWord)?;
        self.take_word();
        Ok(())
    }

    /// Takes the word, if it comes next.
    #[tactic(auto, unfolding(crate::specs::Scan::eat))]
    pub fn eat(&mut self, word: &[u8]) -> bool
        ensures { spec.eat word.now self.old ≡ Ok (result, self.new) }
    {
        let found = word == self.peek();
        if found {
            self.take_word();
        }
        found
    }

    /// Takes a name.
    #[tactic(auto, unfolding(crate::specs::Scan::read_name, crate::specs::Scan::need))]
    pub fn read_name(&mut self) -> Result<Name, Fault>
        ensures read { Scans (spec.read_name self.old) result self.new }
        ensures unchanged { OnErr result (self.new ≡ self.old) }
    {
        self.need(is_name(self.peek()), Cause::BadName)?;
        Ok(Name::new(self.take_word()))
    }

    /// Takes a name that is none of those given, which else are faults of this cause.
    #[tactic(auto, unfolding(crate::specs::Scan::read_new_name, crate::specs::Scan::need))]
    pub fn read_new_name(&mut self, cause: Cause, taken: &[Name]) -> Result<Name, Fault>
        ensures read { Scans (spec.read_new_name cause taken.now self.old) result self.new }
        ensures unchanged { OnErr result (self.new ≡ self.old) }
    {
        let word = self.peek();
        self.need(is_name(word), Cause::BadName)?;
        self.need(!is_among(taken, word), cause)?;
        Ok(Name::new(self.take_word()))
    }

    /// Takes a number.
    #[tactic(auto, unfolding(crate::specs::Scan::read_number, crate::specs::Scan::need))]
    pub fn read_number(&mut self) -> Result<u64, Fault>
        ensures read { Scans (spec.read_number self.old) result self.new }
        ensures unchanged { OnErr result (self.new ≡ self.old) }
    {
        match number_of(self.peek()) {
            None => Err(self.fault(Cause::BadNumber)),
            Some(number) => {
                self.take_word();
                Ok(number)
            }
        }
    }

    /// Takes a future, and gives its name without the at sign.
    #[tactic(auto, unfolding(crate::specs::Scan::read_future, crate::specs::Scan::need))]
    pub fn read_future(&mut self) -> Result<Name, Fault>
        ensures read { Scans (spec.read_future self.old) result self.new }
        ensures unchanged { OnErr result (self.new ≡ self.old) }
    {
        self.need(is_future(self.peek()), Cause::BadName)?;
        Ok(Name::new(&self.take_word()[1..]))
    }

    /// Whether no word is left, or the next one is at fault.
    #[tactic(auto, unfolding(crate::specs::Scan::need))]
    pub fn ended(&self) -> Result<(), Fault>
        ensures { Scans (spec.ended tt self.now) result self.now }
    {
        self.need(is_missing(self.peek()), Cause::WordsLeft)
    }

    fn copy(&self) -> Words<'a>
        ensures { result ≡ self.now }
    {
        Words {
            line: self.line,
            word: self.word,
            front: self.front,
            rest: self.rest,
        }
    }

    /// No word is left.
    #[tactic(auto, using(crate::proofs::Cutting::is_over_from))]
    pub fn is_over(&self) -> bool
        ensures { result ≡ is_over self.now.left }
    {
        is_missing(self.front)
    }

    /// Whether each byte of the words that are left is text; the first word with another is at
    /// fault.
    pub fn check_text(&self) -> Result<(), Fault>
        ensures { result ≡ spec.check_words self.now.line self.now.word self.now.left }
    {
        let mut ahead = self.copy();
        'words: while !ahead.is_over() {
            if !is_text(ahead.peek()) {
                return Err(ahead.fault(Cause::NotText));
            }
            ahead.take_word();
        }
        Ok(())
    }
}
