ghost use Rattle.std.specs.Prelude.{◌≡◌, ◌++◌, ◌∷◌, [], ℕ, List as ListOf, codes, map, option_map, OnOk};
ghost use Rattle.task_syntax.specs.declared.program.State.{State as StateOf};
ghost use Rattle.task_lines.specs.Grammar.{future_word, operation_word, relation_word, behind_words, retry_words};
ghost use Rattle.task_writer.specs.Lines.{nameless, name_at, kind_names, variable_names, names_in, term_of, passed_of, step_of};
ghost use Rattle.task_writer.specs.Words.{term_word, passed_word, priority_words, step_words};
ghost use Rattle.task_writer.specs.Text.{spaced, parted, line_text};
ghost use Rattle.task_lines.specs.Groups.{SetsNumber, SetsFuture, SaysWhere};

use crate::list::{put_arguments, put_futures};
use crate::name::{kind_name, label_name, state_name, variable_name};
use crate::part::{put_behind, put_operand, put_priority, put_retry};
use crate::word::{put_end, put_first, put_future, put_word};
use std::alloc::AllocError;
use task_syntax::{
    Argument, Instr, Kind, Line, MathOp, Operand, Priority, Relation, State, Variable,
};

fn operation_word(op: MathOp) -> &'static [u8]
    ensures { result.now ≡ operation_word op }
{
    match op {
        MathOp::Add => b"add",
        MathOp::Sub => b"sub",
        MathOp::Mul => b"mul",
        MathOp::Div => b"div",
        MathOp::Rem => b"rem",
    }
}

fn relation_word(relation: Relation) -> &'static [u8]
    ensures { result.now ≡ relation_word relation }
{
    match relation {
        Relation::Less => b"<",
        Relation::AtMost => b"<=",
        Relation::Equal => b"==",
        Relation::Differs => b"!=",
    }
}

/// Writes a line of a fixed word and a name.
#[tactic(auto, using(crate::proofs::Putting::lines))]
fn put_named(out: &mut Vec<u8>, opening: &[u8], name: &[u8]) -> Result<(), AllocError>
    ensures { OnOk result
        (out.new.items ≡ out.old.items ++ line_text (opening.now ∷ name.now ∷ [])) }
{
    put_first(out, opening)?;
    put_word(out, name)?;
    put_end(out)
}

#[tactic(auto, using(crate::proofs::Putting::lines))]
fn put_set(
    out: &mut Vec<u8>,
    variables: &[Variable],
    to: u16,
    value: Operand,
) -> Result<(), AllocError>
    ensures { OnOk result
        (out.new.items ≡ out.old.items
        ++ line_text (codes "set" ∷ name_at (variable_names variables.now) to
        ∷ term_word (term_of (variable_names variables.now) value) ∷ [])) }
{
    put_first(out, b"set")?;
    put_word(out, variable_name(variables, to))?;
    put_operand(out, variables, value)?;
    put_end(out)
}

#[tactic(auto, using(crate::proofs::Putting::lines))]
fn put_math(
    out: &mut Vec<u8>,
    variables: &[Variable],
    op: MathOp,
    to: u16,
    left: Operand,
    right: Operand,
) -> Result<(), AllocError>
    ensures { OnOk result
        (out.new.items ≡ out.old.items
        ++ line_text (operation_word op ∷ name_at (variable_names variables.now) to
        ∷ term_word (term_of (variable_names variables.now) left)
        ∷ term_word (term_of (variable_names variables.now) right) ∷ [])) }
{
    put_first(out, operation_word(op))?;
    put_word(out, variable_name(variables, to))?;
    put_operand(out, variables, left)?;
    put_operand(out, variables, right)?;
    put_end(out)
}

#[tactic(auto, using(crate::proofs::Putting::lines))]
fn put_if(
    out: &mut Vec<u8>,
    variables: &[Variable],
    relation: Relation,
    left: Operand,
    right: Operand,
    target: &[u8],
) -> Result<(), AllocError>
    ensures { OnOk result
        (out.new.items ≡ out.old.items
        ++ line_text (codes "if" ∷ term_word (term_of (variable_names variables.now) left)
        ∷ relation_word relation ∷ term_word (term_of (variable_names variables.now) right)
        ∷ codes "goto" ∷ target.now ∷ [])) }
{
    put_first(out, b"if")?;
    put_operand(out, variables, left)?;
    put_word(out, relation_word(relation))?;
    put_operand(out, variables, right)?;
    put_word(out, b"goto")?;
    put_word(out, target)?;
    put_end(out)
}

#[tactic(auto, using(crate::proofs::Putting::lines))]
fn put_cell(
    out: &mut Vec<u8>,
    variables: &[Variable],
    to: u16,
    column: &[u8],
    row: Operand,
) -> Result<(), AllocError>
    ensures { OnOk result
        (out.new.items ≡ out.old.items
        ++ line_text (codes "cell" ∷ name_at (variable_names variables.now) to ∷ column.now
        ∷ term_word (term_of (variable_names variables.now) row) ∷ [])) }
{
    put_first(out, b"cell")?;
    put_word(out, variable_name(variables, to))?;
    put_word(out, column)?;
    put_operand(out, variables, row)?;
    put_end(out)
}

#[tactic(auto, using(crate::proofs::Putting::lines))]
fn put_rows(
    out: &mut Vec<u8>,
    variables: &[Variable],
    to: u16,
    column: &[u8],
) -> Result<(), AllocError>
    ensures { OnOk result
        (out.new.items ≡ out.old.items
        ++ line_text (codes "rows" ∷ name_at (variable_names variables.now) to ∷ column.now ∷ [])) }
{
    put_first(out, b"rows")?;
    put_word(out, variable_name(variables, to))?;
    put_word(out, column)?;
    put_end(out)
}

/// Writes a spawn up to what it passes.
#[tactic(auto, using(crate::proofs::Putting::long_lines))]
fn put_spawn(
    out: &mut Vec<u8>,
    kinds: &[Kind],
    variables: &[Variable],
    to: u16,
    kind: u16,
    arguments: &[Argument],
) -> Result<(), AllocError>
    ensures { OnOk result
        (out.new.items ≡ out.old.items
        ++ parted (codes "spawn" ∷ future_word (name_at (variable_names variables.now) to)
        ∷ name_at (kind_names kinds.now) kind
        ∷ map passed_word (map (passed_of (variable_names variables.now)) arguments.now))) }
{
    put_first(out, b"spawn")?;
    put_future(out, variable_name(variables, to))?;
    put_word(out, kind_name(kinds, kind))?;
    put_arguments(out, variables, arguments)
}

/// Writes an aggregate up to its members.
#[tactic(auto, using(crate::proofs::Putting::long_lines))]
fn put_all(
    out: &mut Vec<u8>,
    variables: &[Variable],
    to: u16,
    members: &[u16],
) -> Result<(), AllocError>
    ensures { OnOk result
        (out.new.items ≡ out.old.items
        ++ parted (codes "all" ∷ future_word (name_at (variable_names variables.now) to)
        ∷ map future_word (map (name_at (variable_names variables.now)) members.now))) }
{
    put_first(out, b"all")?;
    put_future(out, variable_name(variables, to))?;
    put_futures(out, variables, members)
}

/// Ends the line of an aggregate, or of a spawn.
#[tactic(auto, using(crate::proofs::Putting::long_lines))]
fn put_options(out: &mut Vec<u8>, priority: Priority, retry: bool) -> Result<(), AllocError>
    ensures { OnOk result
        (out.new.items ≡ out.old.items
        ++ (spaced (priority_words priority ++ retry_words retry) ++ 10 ∷ [])) }
{
    put_priority(out, priority)?;
    put_retry(out, retry)?;
    put_end(out)
}

/// Ends the line of a spawn.
#[tactic(auto, using(crate::proofs::Putting::long_lines))]
fn put_spawn_end(
    out: &mut Vec<u8>,
    variables: &[Variable],
    behind: Option<u16>,
    priority: Priority,
    retry: bool,
) -> Result<(), AllocError>
    ensures { OnOk result
        (out.new.items ≡ out.old.items
        ++ (spaced (behind_words (option_map (name_at (variable_names variables.now)) behind)
        ++ (priority_words priority ++ retry_words retry)) ++ 10 ∷ [])) }
{
    put_behind(out, variables, behind)?;
    put_options(out, priority, retry)
}

#[tactic(auto, using(crate::proofs::Putting::lines))]
fn put_copy(out: &mut Vec<u8>, to: &[u8], of: &[u8]) -> Result<(), AllocError>
    ensures { OnOk result
        (out.new.items ≡ out.old.items
        ++ line_text (codes "copy" ∷ future_word to.now ∷ future_word of.now ∷ [])) }
{
    put_first(out, b"copy")?;
    put_future(out, to)?;
    put_future(out, of)?;
    put_end(out)
}

#[tactic(auto, using(crate::proofs::Putting::lines))]
fn put_drop(out: &mut Vec<u8>, future: &[u8]) -> Result<(), AllocError>
    ensures { OnOk result
        (out.new.items ≡ out.old.items ++ line_text (codes "drop" ∷ future_word future.now ∷ [])) }
{
    put_first(out, b"drop")?;
    put_future(out, future)?;
    put_end(out)
}

#[tactic(auto, using(crate::proofs::Putting::lines))]
fn put_get(out: &mut Vec<u8>, to: &[u8], future: &[u8]) -> Result<(), AllocError>
    ensures { OnOk result
        (out.new.items ≡ out.old.items
        ++ line_text (codes "get" ∷ to.now ∷ future_word future.now ∷ [])) }
{
    put_first(out, b"get")?;
    put_word(out, to)?;
    put_future(out, future)?;
    put_end(out)
}

#[tactic(auto, using(crate::proofs::Putting::lines))]
fn put_again(
    out: &mut Vec<u8>,
    variables: &[Variable],
    target: &[u8],
    behind: Option<u16>,
    priority: Priority,
) -> Result<(), AllocError>
    ensures { OnOk result
        (out.new.items ≡ out.old.items
        ++ line_text (codes "again" ∷ target.now
        ∷ (behind_words (option_map (name_at (variable_names variables.now)) behind)
        ++ priority_words priority))) }
{
    put_first(out, b"again")?;
    put_word(out, target)?;
    put_behind(out, variables, behind)?;
    put_priority(out, priority)?;
    put_end(out)
}

#[tactic(auto, using(crate::proofs::Putting::lines))]
fn put_done(out: &mut Vec<u8>, variables: &[Variable], value: Operand) -> Result<(), AllocError>
    ensures { OnOk result
        (out.new.items ≡ out.old.items
        ++ line_text (codes "done" ∷ term_word (term_of (variable_names variables.now) value)
        ∷ [])) }
{
    put_first(out, b"done")?;
    put_operand(out, variables, value)?;
    put_end(out)
}

/// Writes the line of an instruction that sets a number.
#[tactic(auto, unfolding(crate::specs::Lines::step_of), using(crate::proofs::Putting::long_lines))]
fn put_number_step(out: &mut Vec<u8>, kind: &Kind, instr: &Instr) -> Result<(), AllocError>
    requires { SetsNumber (step_of nameless instr.now) }
    ensures { (kinds : ListOf (ListOf ℕ)) (state : StateOf) → OnOk result
        (out.new.items ≡ out.old.items
        ++ line_text (step_words (step_of (names_in kinds kind.now state) instr.now))) }
{
    let variables = kind.variables.as_slice();
    match instr {
        Instr::Set { to, value } => put_set(out, variables, *to, *value),
        Instr::Math {
            op,
            to,
            left,
            right,
        } => put_math(out, variables, *op, *to, *left, *right),
        Instr::Cell { to, column, row } => {
            put_cell(out, variables, *to, column.as_bytes(), *row)
        }
        Instr::Rows { to, column } => put_rows(out, variables, *to, column.as_bytes()),
        Instr::Get { to, future } => put_get(
            out,
            variable_name(variables, *to),
            variable_name(variables, *future),
        ),
        _ => unreachable!(),
    }
}

/// Writes the line of an instruction that sets a future.
#[tactic(auto, unfolding(crate::specs::Lines::step_of), using(crate::proofs::Putting::long_lines))]
fn put_future_step(
    out: &mut Vec<u8>,
    kinds: &[Kind],
    kind: &Kind,
    instr: &Instr,
) -> Result<(), AllocError>
    requires { SetsFuture (step_of nameless instr.now) }
    ensures { (state : StateOf) → OnOk result
        (out.new.items ≡ out.old.items
        ++ line_text (step_words
        (step_of (names_in (kind_names kinds.now) kind.now state) instr.now))) }
{
    let variables = kind.variables.as_slice();
    match instr {
        Instr::Spawn {
            to,
            kind: callee,
            arguments,
            behind,
            priority,
            retry,
        } => {
            put_spawn(out, kinds, variables, *to, *callee, arguments.as_slice())?;
            put_spawn_end(out, variables, *behind, *priority, *retry)
        }
        Instr::All {
            to,
            members,
            priority,
            retry,
        } => {
            put_all(out, variables, *to, members.as_slice())?;
            put_options(out, *priority, *retry)
        }
        Instr::Copy { to, of } => put_copy(
            out,
            variable_name(variables, *to),
            variable_name(variables, *of),
        ),
        Instr::Drop { future } => put_drop(out, variable_name(variables, *future)),
        _ => unreachable!(),
    }
}

/// Writes the line of an instruction that says where the task goes on.
#[tactic(auto, unfolding(crate::specs::Lines::step_of), using(crate::proofs::Putting::long_lines))]
fn put_going_step(
    out: &mut Vec<u8>,
    kind: &Kind,
    state: &State,
    instr: &Instr,
) -> Result<(), AllocError>
    requires { SaysWhere (step_of nameless instr.now) }
    ensures { (kinds : ListOf (ListOf ℕ)) → OnOk result
        (out.new.items ≡ out.old.items
        ++ line_text (step_words (step_of (names_in kinds kind.now state.now) instr.now))) }
{
    let variables = kind.variables.as_slice();
    match instr {
        Instr::If {
            relation,
            left,
            right,
            target,
        } => {
            let label = label_name(state.code.as_slice(), *target);
            put_if(out, variables, *relation, *left, *right, label)
        }
        Instr::Goto { target } => {
            put_named(out, b"goto", label_name(state.code.as_slice(), *target))
        }
        Instr::Label { name } => put_named(out, b"label", name.as_bytes()),
        Instr::Again {
            target,
            behind,
            priority,
        } => {
            let name = state_name(kind.states.as_slice(), *target);
            put_again(out, variables, name, *behind, *priority)
        }
        Instr::Done { value } => put_done(out, variables, *value),
        _ => unreachable!(),
    }
}

/// Writes the line of an instruction in a state of a kind.
#[tactic(auto, unfolding(crate::specs::Lines::step_of))]
pub fn put_step(
    out: &mut Vec<u8>,
    kinds: &[Kind],
    kind: &Kind,
    state: &State,
    instr: &Instr,
) -> Result<(), AllocError>
    ensures { OnOk result
        (out.new.items ≡ out.old.items
        ++ line_text (step_words
        (step_of (names_in (kind_names kinds.now) kind.now state.now) instr.now))) }
{
    match instr {
        Instr::Set { .. }
        | Instr::Math { .. }
        | Instr::Cell { .. }
        | Instr::Rows { .. }
        | Instr::Get { .. } => put_number_step(out, kind, instr),
        Instr::Spawn { .. } | Instr::All { .. } | Instr::Copy { .. } | Instr::Drop { .. } => {
            put_future_step(out, kinds, kind, instr)
        }
        Instr::If { .. }
        | Instr::Goto { .. }
        | Instr::Label { .. }
        | Instr::Again { .. }
        | Instr::Done { .. } => put_going_step(out, kind, state, instr),
    }
}
