ghost use Rattle.std.specs.Prelude.{◌≡◌, ◌≤◌, length, IfOk};
ghost use Rattle.task_writer.specs.Text.{text_of};
ghost use Rattle.bench_programs.specs.Programs.{family_program};
ghost use Rattle.bench_programs.specs.Parts.{front_of, back_of};
ghost use Rattle.bench_programs.specs.Laws.{ReadsAs};

use crate::family::Family;
use itoa::Buffer;
use std::alloc::Global;
use task_syntax::Memory;

const FIB: &str = "ktask 1
kind fib n
var x y @a @b @g
state start
if n < 2 goto small
sub x n 1
sub y n 2
spawn @a fib x
spawn @b fib y
all @g @a @b
again sum behind @g
label small
done n
state sum holds @a @b settled @a @b
get x @a
get y @b
add x x y
done x
end
root r fib ";

const GRID: &str = "ktask 1
kind grid d
var x @a @b @c @e @g
state start
if d == 0 goto one
sub x d 1
spawn @a grid x high
spawn @b grid x
spawn @c grid x
spawn @e grid x low
all @g @a @b @c @e
again sum behind @g
label one
done 1
state sum holds @a @b @c @e settled @a @b @c @e
get d @a
get x @b
add d d x
get x @c
add d d x
get x @e
add d d x
done d
end
root r grid ";

const CHAIN: &str = "ktask 1
kind leaf n
state start
done n
end
kind chain n s
var x @a
state start
if n == 0 goto out
spawn @a leaf n
again next behind @a
label out
done s
state next holds @a settled @a
get x @a
add s s x
sub n n 1
again start
end
root r chain ";

/// The text before the number.
fn front_of(family: Family) -> &'static str
    ensures { result.now ≡ front_of family }
{
    match family {
        Family::Fib => FIB,
        Family::Grid => GRID,
        Family::Chain => CHAIN,
    }
}

/// The text behind the number.
fn back_of(family: Family) -> &'static str
    ensures { result.now ≡ back_of family }
{
    match family {
        Family::Fib | Family::Grid => "\n",
        Family::Chain => " 0\n",
    }
}

/// The canonical text of the program of a family for a number: at most 400 bytes, which are read
/// as that program.
pub fn family_text(alloc: Global, family: Family, number: u64) -> Result<Vec<u8>, Memory>
    ensures exact { IfOk result (λ text. text.items ≡ text_of (family_program family number)) }
    ensures short { IfOk result (λ text. length text.items ≤ 400) }
    ensures reads_back { IfOk result (λ text. ReadsAs text.items (family_program family number)) }
{
    let mut text = Vec::from_slice(alloc, front_of(family).as_bytes())?;
    text.extend_from_slice(Buffer::new().format(number).as_bytes())?;
    text.extend_from_slice(back_of(family).as_bytes())?;
    Ok(text)
}
