ghost use Rattle.std.specs.Prelude.{◌≡◌, ◌≤◌, length, IsSome};

use crate::numbers::by_number;
use kt_words::{Geometry, SuperWord};
use record_core::{ActivationRow, Ended, RootEnd, TaskRow};

/// An ended run that is given by its rows.
#[derive(Drop)]
pub struct GivenEnd<'a> {
    pub geometry: Geometry,
    pub roots: &'a [RootEnd],
    pub activations: &'a [ActivationRow],
    pub tasks: &'a [TaskRow],
    pub nulls: u64,
    pub held: [u32; 4],
    pub evidence_class: Option<u8>,
    pub evidence: &'a [SuperWord],
    pub ghost few: { length roots.now ≤ 16 },
    pub ghost fit: { length activations.now ≤ 1000 },
    pub ghost beside: { length tasks.now ≡ length activations.now },
    pub ghost evident: { IsSome evidence_class → length evidence.now ≡ geometry.superblocks },
}

impl Ended for GivenEnd<'_> {
    ghost use Rattle.report_rows.specs.Given.{seen_of};

    ghost seen = { seen_of };

    fn geometry(&self) -> Geometry {
        self.geometry
    }

    fn root_count(&self) -> u8 {
        self.roots.len() as u8
    }

    fn root(&self, index: u8) -> RootEnd {
        self.roots[usize::from(index)]
    }

    fn accepted(&self) -> u32 {
        self.activations.len() as u32
    }

    fn activation(&self, number: u32) -> ActivationRow {
        match by_number(self.activations, number) {
            Some(row) => row,
            None => unreachable!(),
        }
    }

    fn task(&self, number: u32) -> TaskRow {
        match by_number(self.tasks, number) {
            Some(row) => row,
            None => unreachable!(),
        }
    }

    fn nulls(&self) -> u64 {
        self.nulls
    }

    fn held(&self, class: u8) -> u32 {
        self.held[usize::from(class)]
    }

    fn evidence_class(&self) -> Option<u8> {
        self.evidence_class
    }

    fn evidence(&self, superblock: u32) -> SuperWord {
        self.evidence[superblock as usize]
    }
}
