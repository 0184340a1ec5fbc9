//! Tests of single words.

ghost use Rattle.std.specs.Prelude.{◌≡◌, ◌≤◌, ◌&&◌, IsTrue, nat_le, length};
ghost use Rattle.std.specs.List.{list_all, list_any};
ghost use Rattle.task_syntax.specs.Names as names;
ghost use Rattle.task_text.specs.Scan as spec;

use crate::number::is_number;
use task_syntax::Name;

/// The words of the language that are no names.
const RESERVED: [&[u8]; 32] = [
    b"ktask", b"kind", b"var", b"state", b"end", b"root", b"label", b"set", b"add", b"sub", b"mul",
    b"div", b"rem", b"if", b"goto", b"cell", b"rows", b"spawn", b"all", b"copy", b"drop", b"get",
    b"again", b"done", b"holds", b"settled", b"behind", b"high", b"regular", b"low", b"retry",
    b"else",
];

/// The word is empty, as what stands behind the last word of a row.
pub fn is_missing(word: &[u8]) -> bool
    ensures { result ≡ spec.is_missing word.now }
{
    match word {
        [] => true,
        _ => false,
    }
}

/// Each byte may stand outside comments.
pub fn is_text(word: &[u8]) -> bool
    ensures { result ≡ spec.is_text word.now }
{
    word.iter().all(|byte| 33 <= *byte && *byte <= 126)
}

fn is_letter(byte: u8) -> bool
    ensures { result ≡ names.is_letter byte }
{
    (b'A' <= byte && byte <= b'Z') || (b'a' <= byte && byte <= b'z')
}

pub fn is_digit(byte: u8) -> bool
    ensures { result ≡ names.is_digit byte }
{
    b'0' <= byte && byte <= b'9'
}

fn is_name_byte(byte: u8) -> bool
    ensures { result ≡ names.is_name_byte byte }
{
    is_letter(byte) || is_digit(byte) || byte == b'_'
}

fn begins_with_letter(word: &[u8]) -> bool
    ensures { result ≡ names.begins_with_letter word.now }
{
    match word {
        [first, ..] => is_letter(*first),
        [] => false,
    }
}

fn is_one_of(words: &[&[u8]], word: &[u8]) -> bool
    ensures { result ≡ list_any (λ one. names.same_bytes word.now one.now) words.now }
{
    words.iter().any(|one| word == *one)
}

fn is_reserved(word: &[u8]) -> bool
    ensures { result ≡ names.is_reserved word.now }
{
    is_one_of(&RESERVED, word)
}

fn are_name_bytes(word: &[u8]) -> bool
    ensures { result ≡ list_all names.is_name_byte word.now }
{
    word.iter().all(|byte| is_name_byte(*byte))
}

/// All that a name is, but that it may be reserved.
fn has_name_form(word: &[u8]) -> bool
    ensures value { result
        ≡ (names.begins_with_letter word.now && list_all names.is_name_byte word.now
        && nat_le (length word.now) 24) }
    ensures short { IsTrue result → length word.now ≤ 24 }
{
    begins_with_letter(word) && are_name_bytes(word) && word.len() <= 24
}

/// A letter and then letters, digits and low lines, at most 24 bytes, and not reserved.
pub fn is_name(word: &[u8]) -> bool
    ensures value { result ≡ names.is_name word.now }
    ensures short { IsTrue result → length word.now ≤ 24 }
{
    if has_name_form(word) {
        !is_reserved(word)
    } else {
        false
    }
}

/// An at sign and a name.
pub fn is_future(word: &[u8]) -> bool
    ensures value { result ≡ spec.is_future word.now }
    ensures short { IsTrue result → length word.now ≤ 25 }
{
    match word {
        [first, name @ ..] => *first == b'@' && is_name(name),
        [] => false,
    }
}

pub fn begins_with_digit(word: &[u8]) -> bool
    ensures { result ≡ spec.begins_with_digit word.now }
{
    match word {
        [first, ..] => is_digit(*first),
        [] => false,
    }
}

/// Not a word that begins like a number and is none.
pub fn is_no_bad_number(word: &[u8]) -> bool
    ensures { result ≡ spec.is_no_bad_number word.now }
{
    if begins_with_digit(word) {
        is_number(word)
    } else {
        true
    }
}

/// A word that stands where a number or a number variable may, though it may be no number.
pub fn is_operand(word: &[u8]) -> bool
    ensures { result ≡ spec.is_operand word.now }
{
    begins_with_digit(word) || is_name(word)
}

/// The word is one of the names.
pub fn is_among(names: &[Name], word: &[u8]) -> bool
    ensures { result ≡ spec.is_among names.now word.now }
{
    names.iter().any(|name| word == name.as_bytes())
}
