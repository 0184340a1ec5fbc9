ghost use Rattle.std.specs.Prelude.{◌≡◌, ◌≤◌, ◌<◌, ◌^◌, length};
ghost use Rattle.std.specs.List.{position};
ghost use Rattle.task_syntax.specs.Names.{same_bytes};
ghost use Rattle.task_text.specs.Scan.{is_among};
ghost use Rattle.task_lines.specs.Scope.{same_sort, is_variable, has_variable};
ghost use Rattle.task_reader.specs.Program.{place_where, place_of, number_place, future_place};

use task_syntax::{Name, Sort, Variable};

/// Whether two names are the same.
pub fn is_same(name: &Name, other: &Name) -> bool
    ensures { result ≡ same_bytes name.now other.now }
{
    name.as_bytes() == other.as_bytes()
}

/// Whether the name is one of these.
pub fn is_among(names: &[Name], name: &Name) -> bool
    ensures { result ≡ is_among names.now name.now }
{
    names.iter().any(|other| is_same(name, other))
}

/// Whether the variable has this sort and name.
pub fn is_variable(sort: Sort, name: &Name, variable: &Variable) -> bool
    ensures { result ≡ is_variable sort name.now variable.now }
{
    is_same_sort(sort, variable.sort) && is_same(name, &variable.name)
}

fn is_same_sort(sort: Sort, other: Sort) -> bool
    ensures { result ≡ same_sort sort other }
{
    match (sort, other) {
        (Sort::Number, Sort::Number) | (Sort::Future, Sort::Future) => true,
        _ => false,
    }
}

/// Whether there is a variable of this sort and name.
pub fn has_variable(variables: &[Variable], sort: Sort, name: &Name) -> bool
    ensures { result ≡ has_variable variables.now sort name.now }
{
    variables
        .iter()
        .any(|variable| is_variable(sort, name, variable))
}

fn find(names: &[Name], name: &Name) -> Option<usize>
    ensures { result ≡ position (same_bytes name.now) names.now }
{
    names.iter().position(|other| is_same(name, other))
}

fn find_variable(variables: &[Variable], sort: Sort, name: &Name) -> Option<usize>
    ensures { result ≡ position (is_variable sort name.now) variables.now }
{
    variables
        .iter()
        .position(|variable| is_variable(sort, name, variable))
}

/// How many names stand before this one.
#[tactic(auto, using(crate::proofs::PlaceLemmas::place_lemmas))]
pub fn place_of(names: &[Name], name: &Name) -> usize
    ensures exact { result ≡ place_of names.now name.now }
    ensures bound { result ≤ length names.now }
{
    find(names, name).unwrap_or(names.len())
}

/// How many variables stand before the one of this sort and name.
#[tactic(auto, using(crate::proofs::PlaceLemmas::place_lemmas))]
pub fn variable_place(variables: &[Variable], sort: Sort, name: &Name) -> usize
    ensures exact { result ≡ place_where (is_variable sort name.now) variables.now }
    ensures bound { result ≤ length variables.now }
{
    find_variable(variables, sort, name).unwrap_or(variables.len())
}
