ghost use Rattle.std.specs.Prelude.{◌≡◌, map};
ghost use Rattle.task_lines.specs.Keyword as spec;

use crate::scope::Place;
use task_syntax::{Priority, Relation};

/// The first word of a line.
#[derive(Debug, Clone, Copy, PartialEq, Eq)]
pub enum Keyword {
    Kind,
    Var,
    State,
    End,
    Root,
    Label,
    Set,
    Add,
    Sub,
    Mul,
    Div,
    Rem,
    If,
    Goto,
    Cell,
    Rows,
    Spawn,
    All,
    Copy,
    Drop,
    Get,
    Again,
    Done,
}

const KEYWORDS: [(&[u8], Keyword); 23] = [
    (b"kind", Keyword::Kind),
    (b"var", Keyword::Var),
    (b"state", Keyword::State),
    (b"end", Keyword::End),
    (b"root", Keyword::Root),
    (b"label", Keyword::Label),
    (b"set", Keyword::Set),
    (b"add", Keyword::Add),
    (b"sub", Keyword::Sub),
    (b"mul", Keyword::Mul),
    (b"div", Keyword::Div),
    (b"rem", Keyword::Rem),
    (b"if", Keyword::If),
    (b"goto", Keyword::Goto),
    (b"cell", Keyword::Cell),
    (b"rows", Keyword::Rows),
    (b"spawn", Keyword::Spawn),
    (b"all", Keyword::All),
    (b"copy", Keyword::Copy),
    (b"drop", Keyword::Drop),
    (b"get", Keyword::Get),
    (b"again", Keyword::Again),
    (b"done", Keyword::Done),
];

const RELATIONS: [(&[u8], Relation); 4] = [
    (b"<", Relation::Less),
    (b"<=", Relation::AtMost),
    (b"==", Relation::Equal),
    (b"!=", Relation::Differs),
];

const PRIORITIES: [(&[u8], Priority); 3] = [
    (b"high", Priority::High),
    (b"regular", Priority::Regular),
    (b"low", Priority::Low),
];

/// What stands beside a word in a table.
fn looked_up<T: Copy>(mut table: &[(&[u8], T)], word: &[u8]) -> Option<T>
    ensures { result ≡ spec.looked_up (map (λ entry. (entry.0.now, entry.1)) table.entry.now)
        word.now }
{
    while let [entry, rest @ ..] = table {
        if entry.0 == word {
            return Some(entry.1);
        }
        table = rest;
    }
    None
}

fn keyword_of(word: &[u8]) -> Option<Keyword>
    ensures { result ≡ spec.keyword_of word.now }
{
    looked_up(&KEYWORDS, word)
}

/// The relation that a word writes.
pub(crate) fn relation_of(word: &[u8]) -> Option<Relation>
    ensures { result ≡ spec.relation_of word.now }
{
    looked_up(&RELATIONS, word)
}

/// The priority that a word writes.
pub(crate) fn priority_of(word: &[u8]) -> Option<Priority>
    ensures { result ≡ spec.priority_of word.now }
{
    looked_up(&PRIORITIES, word)
}

/// Whether a line with this first word may stand at a place.
fn may_open(place: Place, keyword: Keyword) -> bool
    ensures { result ≡ spec.may_open place keyword }
{
    match place {
        Place::Outside => matches!(keyword, Keyword::Kind | Keyword::Root),
        Place::Head => matches!(keyword, Keyword::Var | Keyword::State | Keyword::End),
        Place::Code => !matches!(keyword, Keyword::Kind | Keyword::Var | Keyword::Root),
        Place::Jumped | Place::Ended => {
            matches!(keyword, Keyword::Label | Keyword::State | Keyword::End)
        }
    }
}

/// The keyword that opens a line at a place, if the word does so.
pub(crate) fn opening(place: Place, word: &[u8]) -> Option<Keyword>
    ensures { result ≡ spec.opening place word.now }
{
    let keyword = keyword_of(word)?;
    if may_open(place, keyword) {
        Some(keyword)
    } else {
        None
    }
}
