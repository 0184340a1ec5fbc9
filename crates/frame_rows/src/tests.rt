ghost use Rattle.std.specs.Prelude.{◌≡◌, ◌+◌, ◌<◌, ◌≤◌, ◌^◌, IfSome, length};
ghost use Rattle.task_syntax.specs.Places.{Each};
ghost use Rattle.frame_code.specs.Frames.{IsFrame};

use frame_code::{
    Asked, CheckedCode, Few, Frame, Passed, Requests, SpawnRequest, advance, assign, at_entry,
    class_of, enter_held, entry_frame, has_sort, is_aggregate, member, members_class,
    members_frame, naming_words, pass_on, passed_by, set_number, units_named, words_of,
};
use sample_programs::program_of;
use std::test::Fail;
use task_syntax::{Columns, Sort};

/// In the variables of the second kind the futures stand between and behind the numbers, and its
/// second state holds the first of them alone.
const PROGRAM: &[u8] =
    b"ktask 1\nkind leaf n\nstate start\n  done n\nend\nkind top n\n  var @a x @b\n\
    state start\n  add x n 1\n  spawn @a leaf x\n  spawn @b leaf n\n  again last behind @a\n\
    state last holds @a settled @a\n  get x @a\n  done x\nend\nroot r top 4\n";

/// The frame of the second kind at its entry, with this number for its argument; none where there
/// is no such kind.
fn top(checked: &CheckedCode, number: u64) -> Option<Frame>
    ensures { IfSome result (λ frame. IsFrame checked.now frame.items) }
{
    if checked.program().kinds.len() <= 1 {
        return None;
    }
    let mut frame = Frame::new();
    at_entry(checked, 1, &mut frame);
    if !has_sort(checked, &frame, Sort::Number, 0) {
        return None;
    }
    set_number(checked, &mut frame, 0, number);
    Some(frame)
}

/// Runs a frame to a spawn and past it, and lets the variable there name a unit. Tells whether it
/// came to a spawn.
fn go_past_spawn(checked: &CheckedCode, columns: &Columns, frame: &mut Frame, unit: u64) -> bool
    requires frame { IsFrame checked.now frame.old.items }
    requires unit { unit + 1 < 2 ^ 64 }
    ensures { IsFrame checked.now frame.new.items }
{
    let mut requests = Requests::new();
    let Asked::Spawn = advance(checked, columns, frame, &mut requests) else {
        return false;
    };
    let to = requests.spawn.to;
    pass_on(checked, frame);
    if !has_sort(checked, frame, Sort::Future, to) {
        return false;
    }
    let _none = assign(checked, frame, to, unit);
    true
}

/// Runs a frame to a respawn and into the state there. Tells whether it came to one.
fn respawn(
    checked: &CheckedCode,
    columns: &Columns,
    frame: &mut Frame,
    given_up: &mut Few<u64, 64>,
) -> bool
    requires { IsFrame checked.now frame.old.items }
    ensures { IsFrame checked.now frame.new.items }
{
    let mut requests = Requests::new();
    let Asked::Again(request) = advance(checked, columns, frame, &mut requests) else {
        return false;
    };
    enter_held(checked, frame, request.target, given_up);
    true
}

/// What a future variable names; none where there is no such variable.
fn unit_named(checked: &CheckedCode, frame: &Frame, x: u16) -> Option<Few<u64, 8>>
    requires { IsFrame checked.now frame.now.items }
{
    if !has_sort(checked, frame, Sort::Future, x) {
        return None;
    }
    Some(units_named(checked, frame, [x].as_slice()))
}

/// Makes a frame that of an aggregate of two, and tells the second of them.
fn pair(checked: &CheckedCode, frame: &mut Frame, first: u64, second: u64) -> u64
    requires first { first + 1 < 2 ^ 64 }
    requires second { second + 1 < 2 ^ 64 }
    ensures { IsFrame checked.now frame.new.items }
{
    members_frame([first, second].as_slice(), frame);
    member(frame, 1)
}

/// What a request passes; none where it passes anything but one number, or its kind takes something
/// else.
fn number_passed(
    checked: &CheckedCode,
    frame: &Frame,
    request: &SpawnRequest,
) -> Option<Few<Passed, 16>>
    requires { IsFrame checked.now frame.now.items }
{
    let kinds = checked.program().kinds.as_slice();
    if is_aggregate(frame) || kinds.len() <= request.kind as usize {
        return None;
    }
    let kind = &kinds[request.kind as usize];
    let variables = kind.variables.as_slice();
    if kind.arguments != 1 || variables.len() < 1 || variables[0].sort != Sort::Number {
        return None;
    }
    if request.numbers.as_slice().len() != 1 || request.futures.as_slice().len() != 0 {
        return None;
    }
    let mut passed = Few::new();
    passed_by(checked, frame, request, &mut passed);
    Some(passed)
}

/// The first frame of a task of a kind to which one number is passed; none where something else is
/// passed, or the kind takes something else.
fn entered_with(checked: &CheckedCode, kind: u16, passed: &[Passed]) -> Option<Frame> {
    let kinds = checked.program().kinds.as_slice();
    if kinds.len() <= kind as usize || passed.len() != 1 {
        return None;
    }
    let variables = kinds[kind as usize].variables.as_slice();
    if variables.len() < 1 || variables[0].sort != Sort::Number {
        return None;
    }
    let Passed::Number(_) = passed[0] else {
        return None;
    };
    let mut first = Frame::new();
    entry_frame(checked, kind, passed, &mut first);
    Some(first)
}

#[test]
fn an_entry_has_its_kind_and_its_number(rt: HostRuntime) -> Result<(), Fail> {
    let checked = program_of(rt.alloc(), PROGRAM)?.ok_or("no program")?;
    let code = CheckedCode::new(rt.alloc(), &checked)?;
    let frame = top(&code, 4).ok_or("no kind")?;
    assert_eq!(rt; frame.as_slice(), [1, 4, 0, 0, 0].as_slice());
    Ok(())
}

#[test]
fn a_task_goes_past_its_spawns_and_keeps_what_is_held(rt: HostRuntime) -> Result<(), Fail> {
    let checked = program_of(rt.alloc(), PROGRAM)?.ok_or("no program")?;
    let code = CheckedCode::new(rt.alloc(), &checked)?;
    let columns = Columns::none(rt.alloc());
    let mut frame = top(&code, 4).ok_or("no kind")?;
    assert!(rt; go_past_spawn(&code, &columns, &mut frame, 7));
    assert_eq!(rt; frame.as_slice(), [131_073, 4, 5, 8, 0].as_slice());
    assert!(rt; go_past_spawn(&code, &columns, &mut frame, 0));
    assert_eq!(rt; frame.as_slice(), [196_609, 4, 5, 8, 1].as_slice());
    assert!(rt; !is_aggregate(&frame));
    assert_eq!(rt; naming_words(&code, &frame), [8, 1].as_slice());
    let first = unit_named(&code, &frame, 1).ok_or("no future")?;
    assert_eq!(rt; first.as_slice(), [7].as_slice());
    let mut given_up = Few::new();
    assert!(rt; respawn(&code, &columns, &mut frame, &mut given_up));
    assert_eq!(rt; frame.as_slice(), [257, 4, 5, 8, 0].as_slice());
    assert_eq!(rt; given_up.as_slice(), [0].as_slice());
    Ok(())
}

#[test]
fn an_aggregate_goes_past_its_members(rt: HostRuntime) -> Result<(), Fail> {
    let checked = program_of(rt.alloc(), PROGRAM)?.ok_or("no program")?;
    let code = CheckedCode::new(rt.alloc(), &checked)?;
    let columns = Columns::none(rt.alloc());
    let mut frame = Frame::new();
    assert_eq!(rt; pair(&code, &mut frame, 3, 0), 0);
    assert_eq!(rt; frame.as_slice(), [66_303, 4, 1].as_slice());
    assert!(rt; is_aggregate(&frame));
    assert_eq!(rt; naming_words(&code, &frame), [4, 1].as_slice());
    let mut given_up = Few::new();
    assert!(rt; respawn(&code, &columns, &mut frame, &mut given_up));
    assert_eq!(rt; frame.as_slice(), [131_839, 4, 1].as_slice());
    assert_eq!(rt; given_up.as_slice().len(), 0);
    Ok(())
}

#[test]
fn blocks_are_told_by_their_words(rt: HostRuntime) -> Result<(), Fail> {
    let checked = program_of(rt.alloc(), PROGRAM)?.ok_or("no program")?;
    let code = CheckedCode::new(rt.alloc(), &checked)?;
    if code.program().kinds.len() <= 1 {
        return Err(Fail::new("no kind"));
    }
    assert_eq!(rt; words_of(&code, 0), 2);
    assert_eq!(rt; words_of(&code, 1), 5);
    assert_eq!(rt; class_of(&code, 1), 0);
    assert_eq!(rt; members_class(7), 0);
    assert_eq!(rt; members_class(8), 1);
    Ok(())
}

#[test]
fn a_new_task_begins_with_what_is_passed(rt: HostRuntime) -> Result<(), Fail> {
    let checked = program_of(rt.alloc(), PROGRAM)?.ok_or("no program")?;
    let code = CheckedCode::new(rt.alloc(), &checked)?;
    let columns = Columns::none(rt.alloc());
    let mut frame = top(&code, 4).ok_or("no kind")?;
    let mut requests = Requests::new();
    let Asked::Spawn = advance(&code, &columns, &mut frame, &mut requests) else {
        return Err(Fail::new("no spawn"));
    };
    let passed = number_passed(&code, &frame, &requests.spawn).ok_or("no number")?;
    assert_eq!(rt; passed.as_slice(), [Passed::Number(5)].as_slice());
    let first = entered_with(&code, requests.spawn.kind, passed.as_slice()).ok_or("no frame")?;
    assert_eq!(rt; first.as_slice(), [0, 5].as_slice());
    Ok(())
}
