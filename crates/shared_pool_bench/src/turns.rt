ghost use Rattle.std.specs.Prelude.{◌≤◌};

use kt_words::Geometry;

/// What is measured.
#[derive(Clone, Copy)]
pub struct Turns {
    pub geometry: Geometry,
    pub is_filled: bool,
    pub threads: u32,
    pub rounds: u32,
}
