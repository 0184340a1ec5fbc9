ghost use Rattle.std.specs.Prelude.{◌≡◌, ◌≤◌, ◌↔◌, IsSome, IfSome};
ghost use Rattle.kt_words.specs.Ranges.{IsPlan};

use crate::geometry::Geometry;

/// What a run may take: the shape of its pool, how many activations it may start, and how many roots it may have.
#[derive(Debug, Clone, Copy, PartialEq, Eq)]
pub struct Plan {
    pub geometry: Geometry,
    pub limit: u64,
    pub roots: u8,
    pub ghost limit_fits: { (1 ≤ limit) × (limit ≤ 4000000) },
    pub ghost roots_fit: { roots ≤ 16 },
}

impl Plan {
    /// A plan for 1 to 4,000,000 activations and at most 16 roots.
    pub fn new(geometry: Geometry, limit: u64, roots: u8) -> Option<Plan>
        ensures exactly { IsSome result ↔ IsPlan limit roots }
        ensures numbers { IfSome result (λ made. (made.geometry ≡ geometry) × (made.limit ≡ limit) × (made.roots ≡ roots)) }
    {
        if limit == 0 || limit > 4_000_000 || roots > 16 {
            return None;
        }
        Some(Plan {
            geometry,
            limit,
            roots,
        })
    }
}
