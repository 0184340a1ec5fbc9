//! Passes are split and joined.
ghost use Rattle.std.specs.Prelude.{◌≡◌, ◌+◌, ◌<◌};
ghost use Rattle.table_core.specs.Views.{kept_half, idle_half, HasOnlyBlocks};
ghost use Rattle.schedule_rule.specs.SoundViews.{SoundView};

use crate::halves::Halves;
use crate::layout::super_word;
use crate::pass::Pass;
use crate::shared::Shared;
use crate::turn::either;
use std::marker::Brand;

impl Shared {
    ghost use Rattle.step_table.specs.Passes.{view, IsOf};
    ghost use Rattle.step_table.specs.Steps.{Joins};

    /// Two passes of one: the first keeps what the pass holds, the second holds nothing. Both know
    /// what the pass has seen, and have its last looks.
    pub fn split(&self, pass: Pass) -> (Pass, Pass)
        requires table { IsOf self.now pass }
        requires splits { 0 < pass.splits }
        ensures table { IsOf self.now result.0 × IsOf self.now result.1 }
        ensures first { view result.0 ≡ kept_half (view pass) }
        ensures second { view result.1 ≡ idle_half (view pass) }
        ensures splits { (result.0.splits + 1 ≡ pass.splits) × (result.1.splits ≡ 0) }
        ensures numbers { (result.0.number ≡ pass.number) × (result.1.number ≡ pass.splits) }
        ensures last { (result.0.last ≡ pass.last) × (result.1.last ≡ pass.last) }
        ensures starts { result.0.starts ≡ pass.starts }
        ensures held { (result.0.held ≡ pass.held) × (result.1.held ≡ 0) }
    {
        let Pass {
            mut seat,
            splits,
            number,
            starts,
            last,
            held,
            turn,
        } = pass;
        let second = self.table.shared.split_seat::<Halves>(&mut seat);
        let start = splits % self.setup.plan.geometry.superblocks;
        let first = Pass {
            seat,
            splits: splits - 1,
            number,
            starts,
            last,
            held,
            turn,
        };
        let second = Pass {
            seat: second,
            splits: 0,
            number: splits,
            starts: [start; 4],
            last,
            held: 0,
            turn: None,
        };
        (first, second)
    }

    /// One pass of two: it has the blocks of both and knows what both have seen, with the last
    /// looks of the first. The second pass may hold nothing but blocks.
    pub fn join(&self, keep: Pass, other: Pass) -> Pass
        requires table { IsOf self.now keep × IsOf self.now other }
        requires other { HasOnlyBlocks (view other) }
        ensures table { IsOf self.now result }
        ensures view { Joins keep other result }
        ensures splits { result.splits ≡ keep.splits + other.splits + 1 }
        ensures number { result.number ≡ keep.number }
        ensures last { (result.last ≡ keep.last) × (result.starts ≡ keep.starts) }
        ensures held { result.held ≡ keep.held }
        ensures sound { SoundView self.now.setup (view result) }
    {
        let Pass {
            mut seat,
            splits,
            number,
            starts,
            last,
            held,
            turn,
        } = keep;
        let Pass {
            seat: other,
            splits: more,
            turn: its_turn,
            ..
        } = other;
        self.table.shared.join_seat::<Halves>(&mut seat, other);
        self.load_as::<Brand, _>(&mut seat, super_word(&self.setup.plan, 0), &());
        Pass {
            seat,
            splits: splits + more + 1,
            number,
            starts,
            last,
            held,
            turn: either(turn, its_turn),
        }
    }
}
