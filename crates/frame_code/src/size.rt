ghost use Rattle.std.specs.Prelude.{◌≡◌, ◌+◌, ◌<◌, ◌≤◌, length};
ghost use Rattle.kt_words.specs.Capacity.{class_for as class_of_words};
ghost use Rattle.task_meaning.specs.Frame.{variables_of};

use crate::code::CheckedCode;
use crate::lookup::kind_at;

/// The smallest class whose blocks have so many words: 8 in class 0, and twice as many in each
/// next class.
fn class_for(words: usize) -> u8
    ensures { result ≡ class_of_words words }
{
    match words {
        0..=8 => 0,
        9..=16 => 1,
        17..=32 => 2,
        _ => 3,
    }
}

/// How many words the frames of a kind have.
pub fn words_of(checked: &CheckedCode, kind: u16) -> u32
    requires { kind < length checked.now.kinds }
    ensures { result ≡ 1 + variables_of checked.now kind }
{
    1 + kind_at(checked.program(), kind).variables.len() as u32
}

/// The class of the block of a task of a kind.
pub fn class_of(checked: &CheckedCode, kind: u16) -> u8
    requires { kind < length checked.now.kinds }
    ensures { result ≡ class_of_words (1 + variables_of checked.now kind) }
{
    class_for(words_of(checked, kind) as usize)
}

/// The class of the block of an aggregate of 1 to 8 members.
pub fn members_class(members: u8) -> u8
    requires some { 1 ≤ members }
    requires few { members ≤ 8 }
    ensures { result ≡ class_of_words (1 + members) }
{
    class_for(1 + members as usize)
}
