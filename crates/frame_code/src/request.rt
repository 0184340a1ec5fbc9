ghost use Rattle.std.specs.Prelude.{◌≡◌, ◌≤◌, length};
ghost use Rattle.task_syntax.specs.Places.{Each};
ghost use Rattle.task_syntax.specs.Form.{IsFormedArgument};
ghost use Rattle.frame_code.specs.Stops.{numbers_passed, variables_passed};
ghost use Rattle.frame_code.specs.Line.{IsLaidOut, FitsKind, Calls, StopsAlone, AlwaysStops, AsksFor, numbers_of};
ghost use Rattle.frame_code.specs.declared.act.Requests.{Requests as RequestsOf};
ghost use Rattle.frame_code.specs.Told.{act_told};

use crate::act::{Asked, Requests, RespawnRequest};
use crate::few::Few;
use crate::line::read;
use task_syntax::{Argument, Instr, Kind};

/// Makes a list that of the numbers among the arguments of a spawn.
fn pass_numbers(
    kind: &Kind,
    places: &[u8],
    words: &[u64],
    arguments: &[Argument],
    numbers: &mut Few<u64, 16>,
)
    requires laid_out { IsLaidOut kind.now places.now words.now }
    requires few { length arguments.now ≤ 16 }
    requires formed { Each arguments.now (IsFormedArgument kind.now) }
    ensures { numbers.new ≡ numbers_passed (numbers_of kind.now words.now) arguments.now }
{
    numbers.empty();
    'arguments: for argument in arguments {
        if let Argument::Number(operand) = argument {
            numbers.push(read(kind, places, words, *operand));
        }
    }
}

/// Makes a list that of the variables of the futures among the arguments of a spawn.
fn pass_variables(arguments: &[Argument], variables: &mut Few<u16, 16>)
    requires { length arguments.now ≤ 16 }
    ensures { variables.new ≡ variables_passed arguments.now }
{
    variables.empty();
    'arguments: for argument in arguments {
        if let Argument::Future(variable) = argument {
            variables.push(*variable);
        }
    }
}

/// Makes a list that of the members of an aggregate.
fn pass_members(variables: &[u16], members: &mut Few<u16, 8>)
    requires { length variables.now ≤ 8 }
    ensures { members.new ≡ variables.now }
{
    members.empty();
    'variables: for variable in variables {
        members.push(*variable);
    }
}

/// Tells what a task asks for at an instruction that calls other tasks.
fn request_call(
    kind: &Kind,
    instr: &Instr,
    places: &[u8],
    words: &[u64],
    requests: &mut Requests,
) -> Asked
    requires laid_out { IsLaidOut kind.now places.now words.now }
    requires fits { FitsKind kind.now instr.now }
    requires calls { Calls instr.now }
    ensures { AsksFor kind.now instr.now words.now (act_told result requests.new) }
{
    match instr {
        Instr::Spawn {
            to,
            kind: callee,
            arguments,
            behind,
            priority,
            retry,
        } => {
            let spawn = &mut requests.spawn;
            let arguments = arguments.as_slice();
            pass_numbers(kind, places, words, arguments, &mut spawn.numbers);
            pass_variables(arguments, &mut spawn.futures);
            spawn.to = *to;
            spawn.kind = *callee;
            spawn.behind = *behind;
            spawn.priority = *priority;
            spawn.retry = *retry;
            Asked::Spawn
        }
        Instr::All {
            to,
            members,
            priority,
            retry,
        } => {
            let all = &mut requests.all;
            pass_members(members.as_slice(), &mut all.members);
            all.to = *to;
            all.priority = *priority;
            all.retry = *retry;
            Asked::All
        }
        _ => unreachable!(),
    }
}

/// Tells what a task asks for at an instruction where it always stops, and calls no other task.
fn request_alone(kind: &Kind, instr: &Instr, places: &[u8], words: &[u64]) -> Asked
    requires laid_out { IsLaidOut kind.now places.now words.now }
    requires fits { FitsKind kind.now instr.now }
    requires stops { StopsAlone instr.now }
    ensures { (requests : RequestsOf) → AsksFor kind.now instr.now words.now (act_told result requests) }
{
    match instr {
        Instr::Copy { to, of } => Asked::Copy { to: *to, of: *of },
        Instr::Drop { future } => Asked::Drop { future: *future },
        Instr::Get { future, .. } => Asked::NeedsValue { future: *future },
        Instr::Again {
            target,
            behind,
            priority,
        } => Asked::Again(RespawnRequest {
            target: *target,
            behind: *behind,
            priority: *priority,
        }),
        Instr::Done { value } => Asked::Done(read(kind, places, words, *value)),
        _ => unreachable!(),
    }
}

/// Tells what a task asks for at an instruction where it always stops.
pub fn request(
    kind: &Kind,
    instr: &Instr,
    places: &[u8],
    words: &[u64],
    requests: &mut Requests,
) -> Asked
    requires laid_out { IsLaidOut kind.now places.now words.now }
    requires fits { FitsKind kind.now instr.now }
    requires stops { AlwaysStops instr.now }
    ensures { AsksFor kind.now instr.now words.now (act_told result requests.new) }
{
    match instr {
        Instr::Spawn { .. } | Instr::All { .. } => {
            request_call(kind, instr, places, words, requests)
        }
        Instr::Copy { .. }
        | Instr::Drop { .. }
        | Instr::Get { .. }
        | Instr::Again { .. }
        | Instr::Done { .. } => request_alone(kind, instr, places, words),
        _ => unreachable!(),
    }
}
