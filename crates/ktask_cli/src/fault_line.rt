ghost use Rattle.std.specs.Prelude.{◌≡◌, ◌≤◌, ◌++◌, [], length, codes, decimal};
ghost use Rattle.task_check.specs.Causes.{code_of, word_of};
ghost use Rattle.ktask_cli.specs.declared.stop.Stop.TheVariants.{ProgramFault, CheckFault, ColumnsFault};
ghost use Rattle.ktask_cli.specs.Stop.{line_of, cause_name, printed_name};

use column_input::Cause as ColumnCause;
use itoa::Buffer;
use task_check::Cause;
use task_syntax::Name;
use tool_io::Line;

// The name that is printed of a cause for which a text is no program.
fn cause_name(cause: u8) -> &'static str
    ensures name { result.now ≡ cause_name cause }
    ensures short { length result.now ≤ 11 }
{
    match cause {
        1 => "NotText",
        2 => "NoHeader",
        3 => "UnknownWord",
        4 => "BadName",
        5 => "BadNumber",
        6 => "TwiceNamed",
        7 => "UnknownName",
        8 => "TooMany",
        9 => "NoEnd",
        10 => "BackLabel",
        _ => "WordsLeft",
    }
}

/// The line that tells a fault of the reader, with its line end.
pub(crate) fn fault_line(cause: u8, at: u32, word: u32) -> Line
    ensures { result ≡ line_of [] (ProgramFault cause at word) }
{
    let mut line = Line::new();
    line.push(b"ktask: program line ");
    line.push(Buffer::new().format(at).as_bytes());
    line.push(b" word ");
    line.push(Buffer::new().format(word).as_bytes());
    line.push(b" cause ");
    line.push(Buffer::new().format(cause).as_bytes());
    line.push(b" ");
    line.push(cause_name(cause).as_bytes());
    line.push(b"\n");
    line
}

fn push_cause(line: &mut Line, cause: Cause)
    requires { length line.old ≤ 40 }
    ensures text { line.new ≡ line.old ++ decimal (code_of cause) ++ codes " " ++ word_of cause }
    ensures short { length line.new ≤ 66 }
{
    line.push(Buffer::new().format(cause.code()).as_bytes());
    line.push(b" ");
    line.push(cause.word().as_bytes());
}

// A future is marked by an `@`.
fn push_named(line: &mut Line, cause: Cause, name: &Name)
    requires { length line.old ≤ 68 }
    ensures text { line.new ≡ line.old ++ printed_name cause name.now }
    ensures short { length line.new ≤ 93 }
{
    if cause.names_future() {
        line.push(b"@");
    }
    line.push(name.bytes.as_slice());
}

/// The line that tells a fault of the checker, with its line end.
pub(crate) fn check_line(cause: Cause, at: u32, name: &Name) -> Line
    ensures { result ≡ line_of [] (CheckFault cause at name.now) }
{
    let mut line = Line::new();
    line.push(b"ktask: program line ");
    line.push(Buffer::new().format(at).as_bytes());
    line.push(b" check ");
    push_cause(&mut line, cause);
    line.push(b" ");
    push_named(&mut line, cause, name);
    line.push(b"\n");
    line
}

/// The line that tells a fault of columns, with its line end.
pub(crate) fn columns_line(cause: ColumnCause, row: u32, column: u32) -> Line
    ensures { result ≡ line_of [] (ColumnsFault cause row column) }
{
    let mut line = Line::new();
    line.push(b"ktask: columns row ");
    line.push(Buffer::new().format(row).as_bytes());
    line.push(b" column ");
    line.push(Buffer::new().format(column).as_bytes());
    line.push(b" cause ");
    line.push(Buffer::new().format(cause.code()).as_bytes());
    line.push(b" ");
    line.push(cause.word().as_bytes());
    line.push(b"\n");
    line
}
