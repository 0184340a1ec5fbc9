ghost use Rattle.std.specs.Prelude.{◌≡◌, ◌≤◌, ◌<◌, ◌*◌, ◌^◌, ◌↔◌, IsSome, IfSome, IsTrue};
ghost use Rattle.std.specs.Int.{IsPowerOfTwo};
ghost use Rattle.kt_words.specs.Ranges.{HasUnits, IsGeometry};
ghost use Rattle.kt_words.specs.Capacity.{block_units, capacity};

/// How many superblocks a pool has, and how many units each of them.
#[derive(Debug, Clone, Copy, PartialEq, Eq)]
pub struct Geometry {
    pub superblocks: u32,
    pub units: u32,
    pub ghost superblocks_fit: { (1 ≤ superblocks) × (superblocks ≤ 1024) },
    pub ghost units_fit: { (8 ≤ units) × (units ≤ 512) },
    pub ghost power_of_two: { ∥ IsPowerOfTwo units ∥₁ },
}

impl Geometry {
    /// A pool of 1 to 1,024 superblocks, each of 8, 16, 32 .. or 512 units.
    pub fn new(superblocks: u32, units: u32) -> Option<Geometry>
        ensures exactly { IsSome result ↔ IsGeometry superblocks units }
        ensures numbers { IfSome result (λ made. (made.superblocks ≡ superblocks) × (made.units ≡ units)) }
    {
        if superblocks == 0 || superblocks > 1024 || !has_units(units) {
            return None;
        }
        Some(Geometry { superblocks, units })
    }

    /// How many blocks of the class a superblock holds.
    pub fn cap(&self, class: u8) -> u32
        requires { class ≤ 3 }
        ensures quotient { result ≡ capacity self.now.units class }
        ensures whole { result * block_units class ≡ self.now.units }
        ensures room { (1 ≤ result) × (result ≤ 512) }
    {
        self.units >> class
    }
}

#[tactic(auto, using(crate::proofs::Powers::passes_at_units))]
fn has_units(units: u32) -> bool
    ensures { IsTrue result ↔ HasUnits units }
{
    if units < 8 || units > 512 {
        return false;
    }
    units.is_power_of_two()
}
