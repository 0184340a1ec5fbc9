use crate::write_program;
use std::alloc::{AllocError, Global};
use std::process::Abort;
use std::test::Fail;
use task_reader::{ReadError, read_program};

/// Whether a text is a program, and is written in this form.
fn is_written(
    rt: &impl Abort,
    alloc: Global,
    text: &[u8],
    form: &[u8],
) -> Result<bool, AllocError> {
    assert!(rt; text.len() < 10000000);
    match read_program(alloc, text) {
        Ok(program) => match write_program(alloc, &program) {
            Ok(written) => Ok(written.as_slice() == form),
            Err(_) => Err(AllocError),
        },
        Err(ReadError::Fault { .. }) => Ok(false),
        Err(ReadError::Memory) => Err(AllocError),
    }
}

#[test]
fn what_need_not_be_written_is_left_out(rt: HostRuntime) -> Result<(), Fail> {
    let text = b"ktask 1\n# one\nkind one\n  state start\n  done 007\nend\nroot p one regular\n";
    let form = b"ktask 1\nkind one\nstate start\ndone 7\nend\nroot p one\n";
    assert!(rt; is_written(&rt, rt.alloc(), text, form)?);
    Ok(())
}

#[test]
fn variables_stand_in_one_line_and_roots_behind_kinds(rt: HostRuntime) -> Result<(), Fail> {
    let text = b"ktask 1\r\nroot p two 00 high\nkind two n\n\n var x\nvar @a  y\n\
          \tstate s\n done x\nend\nroot q two 18446744073709551615 behind @p low";
    let form = b"ktask 1\nkind two n\nvar x @a y\nstate s\ndone x\nend\nroot p two 0 high\n\
          root q two 18446744073709551615 behind @p low\n";
    assert!(rt; is_written(&rt, rt.alloc(), text, form)?);
    Ok(())
}

#[test]
fn each_line_of_the_language_is_written_as_it_is_read(rt: HostRuntime) -> Result<(), Fail> {
    let form = b"ktask 1\nkind leaf n @p\nstate start holds @p settled @p\nget n @p\ndone n\n\
          end\nkind all_lines x\nvar y @a @b @g\nstate start\nset y 3\nadd x x y\n\
          sub x x y\nmul x x 2\ndiv x 4 y\nrem x x y\nif x < y goto low_end\n\
          if x <= y goto low_end\nif x == 0 goto low_end\nif 1 != y goto low_end\n\
          cell y price x\nrows y price\nspawn @a leaf x @b behind @a high retry\n\
          spawn @b leaf 0 @a low\nall @g @a @b @a low retry\ncopy @b @a\ndrop @b\n\
          again last behind @g high\nlabel low_end\ngoto out\nlabel out\nagain last\n\
          state last holds @g @a settled @g\ndone 0\nstate last_2 settled @a\ndone y\n\
          end\nroot r all_lines 1\nroot s leaf 2 @r behind @r high\n";
    assert!(rt; is_written(&rt, rt.alloc(), form, form)?);
    Ok(())
}
