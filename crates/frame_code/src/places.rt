ghost use Rattle.std.specs.Prelude.{◌≡◌, ◌+◌, ◌<◌, ◌≤◌, length};
ghost use Rattle.frame_code.specs.Words.{number_count};
ghost use Rattle.frame_code.specs.Layout.{number_place as place_of_number, future_place as place_of_future};
ghost use Rattle.frame_code.specs.Line.{places_from};
ghost use Rattle.frame_code.specs.Code.{layout_of};

use arrayvec::ArrayVec;
use std::marker::Model;
use task_syntax::{Sort, Variable};

/// How many of the variables are numbers.
pub fn count_numbers(variables: &[Variable]) -> usize
    ensures count { result ≡ number_count variables.now }
    ensures few { result ≤ length variables.now }
{
    let mut count = 0usize;
    'variables: for variable in variables {
        if variable.sort == Sort::Number {
            count += 1;
        }
    }
    count
}

/// Where the word of each number variable stands.
fn number_places(variables: &[Variable]) -> ArrayVec<u8, 64>
    requires { length variables.now ≤ 63 }
    ensures { result.items ≡ places_from 1 variables.now }
{
    let mut places = ArrayVec::new();
    let mut next = 1u8;
    'variables: for variable in variables {
        places.push(next);
        if variable.sort == Sort::Number {
            next += 1;
        }
    }
    places
}

/// Where the words of some variables stand in a frame: how many of them are numbers, and by position
/// the place of the word of a number; of a future, the place of the next number.
#[derive(Drop)]
pub struct Layout {
    numbers: u8,
    places: ArrayVec<u8, 64>,
}

impl Model for Layout {
    ghost use Rattle.frame_code.specs.Code.{LayoutOf};

    ghost Value = { LayoutOf };

    ghost view = { λ l. record { numbers = l.numbers; places = l.places.items } };
}

impl Layout {
    /// The layout of the frames of tasks with these variables.
    pub fn new(variables: &[Variable]) -> Layout
        requires { length variables.now ≤ 63 }
        ensures { result ≡ layout_of variables.now }
    {
        Layout {
            numbers: count_numbers(variables) as u8,
            places: number_places(variables),
        }
    }

    /// How many of the variables are numbers.
    fn numbers(&self) -> usize
        ensures { result ≡ self.now.numbers }
    {
        self.numbers as usize
    }

    /// The places.
    fn places(&self) -> &[u8]
        ensures { result.now ≡ self.now.places }
    {
        self.places.as_slice()
    }
}

/// The variables of a kind, with their layout. Contracts see the variables.
#[derive(Drop)]
pub struct KindVariables<'a> {
    variables: &'a [Variable],
    layout: &'a Layout,
}

impl<'a> Model for KindVariables<'a> {
    ghost use Rattle.std.specs.Prelude.{◌≡◌, List};
    ghost use Rattle.task_syntax.specs.declared.program.Variable.{Variable};
    ghost use Rattle.frame_code.specs.Code.{layout_of};

    ghost Value = { List Variable };

    ghost view = { λ v. v.variables.now };

    ghost invariant = { λ v. v.layout.now ≡ layout_of v.variables.now };
}

impl<'a> KindVariables<'a> {
    /// The variables of this layout.
    pub fn new(variables: &'a [Variable], layout: &'a Layout) -> KindVariables<'a>
        requires { layout.now ≡ layout_of variables.now }
        ensures { result ≡ variables.now }
    {
        KindVariables { variables, layout }
    }

    /// The variables as a slice.
    pub fn as_slice(&self) -> &'a [Variable]
        ensures { result.now ≡ self.now }
    {
        self.variables
    }

    /// How many of them are numbers.
    pub fn numbers(&self) -> usize
        ensures count { result ≡ number_count self.now }
        ensures few { result ≤ length self.now }
    {
        self.layout.numbers()
    }

    /// By position the place of the word of a number; of a future, that of the next number.
    pub fn places(&self) -> &'a [u8]
        ensures { result.now ≡ places_from 1 self.now }
    {
        self.layout.places()
    }

    /// Where the word of a number variable stands.
    pub fn number_place(&self, x: u16) -> usize
        requires { x < length self.now }
        ensures { result ≡ place_of_number self.now x }
    {
        self.places()[x as usize] as usize
    }

    /// Where the word of a future variable stands.
    pub fn future_place(&self, x: u16) -> usize
        requires few { length self.now ≤ 63 }
        requires within { x < length self.now }
        ensures { result ≡ place_of_future self.now x }
    {
        let numbers_before = self.number_place(x) - 1;
        1 + self.numbers() + (x as usize - numbers_before)
    }
}
