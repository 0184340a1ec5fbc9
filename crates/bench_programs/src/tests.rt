use crate::{Family, family_checked, family_text};
use std::test::Fail;

const FIB: &[u8] = b"ktask 1
kind fib n
var x y @a @b @g
state start
if n < 2 goto small
sub x n 1
sub y n 2
spawn @a fib x
spawn @b fib y
all @g @a @b
again sum behind @g
label small
done n
state sum holds @a @b settled @a @b
get x @a
get y @b
add x x y
done x
end
root r fib 2
";

const GRID: &[u8] = b"ktask 1
kind grid d
var x @a @b @c @e @g
state start
if d == 0 goto one
sub x d 1
spawn @a grid x high
spawn @b grid x
spawn @c grid x
spawn @e grid x low
all @g @a @b @c @e
again sum behind @g
label one
done 1
state sum holds @a @b @c @e settled @a @b @c @e
get d @a
get x @b
add d d x
get x @c
add d d x
get x @e
add d d x
done d
end
root r grid 2
";

const CHAIN: &[u8] = b"ktask 1
kind leaf n
state start
done n
end
kind chain n s
var x @a
state start
if n == 0 goto out
spawn @a leaf n
again next behind @a
label out
done s
state next holds @a settled @a
get x @a
add s s x
sub n n 1
again start
end
root r chain 100 0
";

#[test]
fn each_family_has_its_text(rt: HostRuntime) -> Result<(), Fail> {
    for (family, number, text) in [
        (Family::Fib, 2, FIB),
        (Family::Grid, 2, GRID),
        (Family::Chain, 100, CHAIN),
    ] {
        assert_eq!(rt; family_text(rt.alloc(), family, number)?.as_slice(), text);
    }
    Ok(())
}

#[test]
fn the_greatest_number_of_all_is_written_whole(rt: HostRuntime) -> Result<(), Fail> {
    let text = family_text(rt.alloc(), Family::Fib, u64::MAX)?;
    assert!(rt;
        text.as_slice()
            .ends_with(b"root r fib 18446744073709551615\n")
    );
    Ok(())
}

#[test]
fn each_family_is_read_and_checked(rt: HostRuntime) -> Result<(), Fail> {
    for (family, kinds) in [(Family::Fib, 1), (Family::Grid, 1), (Family::Chain, 2)] {
        let checked = family_checked(rt.alloc(), family, family.greatest())?;
        assert_eq!(rt; checked.program().kinds.len(), kinds);
    }
    Ok(())
}

#[test]
fn a_family_is_found_by_its_word(rt: HostRuntime) -> Result<(), Fail> {
    for family in [Family::Fib, Family::Grid, Family::Chain] {
        assert_eq!(rt; Family::of_word(family.word()), Some(family));
    }
    for word in ["", "fi", "fibs", "Fib", "fib "] {
        assert_eq!(rt; Family::of_word(word), None);
    }
    Ok(())
}
