ghost use Rattle.std.specs.Prelude.{◌≡◌, Some, slice_get};
ghost use Rattle.plain_state.specs.EndView.{end_of as end_seen_of, root_end as root_seen};
ghost use Rattle.plain_engine.specs.EngineView.{HasRecord, IsReadable, end_of as end_of_engine};

use crate::engine::Engine;
use kt_words::{Geometry, SuperWord};
use plain_records::Records;
use plain_state::{Outcome, RootState};
use record_core::{ActivationRow, CutFrom, CutTag, Ended, PlainJournal, RootEnd, TaskRow};
use std::marker::Model;

/// A run that has ended. Contracts see all that its calls answer, and the task of each root.
#[derive(Drop)]
pub struct PlainEnd {
    geometry: Geometry,
    records: Records,
    journal: PlainJournal,
    roots: Vec<RootState>,
    nulls: u64,
    evidence_class: Option<u8>,
    evidence: Vec<SuperWord>,
}

impl Model for PlainEnd {
    ghost use Rattle.record_core.specs.EndSeen.{EndSeen};
    ghost use Rattle.plain_engine.specs.EngineView.{IsReadable, end_of, engine_of};

    ghost Value = { EndSeen };

    ghost view = { λ e. end_of e.geometry.superblocks e.geometry.units (engine_of e.records
        e.journal e.roots.items e.nulls e.evidence_class e.evidence.items) };

    ghost invariant = { λ e. IsReadable e.geometry.superblocks (engine_of e.records e.journal
        e.roots.items e.nulls e.evidence_class e.evidence.items) };
}

impl PlainEnd {
    /// The end of a run with a pool of this shape.
    pub(crate) fn new(geometry: Geometry, engine: Engine) -> PlainEnd
        requires { IsReadable geometry.superblocks engine }
        ensures { result ≡ end_of_engine geometry.superblocks geometry.units engine }
    {
        PlainEnd {
            geometry,
            records: engine.records,
            journal: engine.journal,
            roots: engine.roots,
            nulls: engine.nulls,
            evidence_class: engine.evidence_class,
            evidence: engine.evidence,
        }
    }
}

/// How a root ended whose task ended so.
fn end_of(task: u32, outcome: Option<Outcome>) -> RootEnd
    ensures { result ≡ end_seen_of task outcome }
{
    match outcome {
        Some(Outcome::Gave(value)) => RootEnd::Value(value),
        Some(Outcome::WasCut(tag)) => RootEnd::Cut(tag, CutFrom::Task(task)),
        None => RootEnd::Cut(CutTag::Null, CutFrom::Task(task)),
    }
}

/// How a root ended.
fn root_end(records: &Records, root: RootState) -> RootEnd
    requires { HasRecord records.now root }
    ensures { result ≡ root_seen records.now root }
{
    match root {
        RootState::Named(unit) => {
            let record = records.record(unit);
            end_of(record.task, record.outcome)
        }
        RootState::Refused(tag) => RootEnd::Cut(tag, CutFrom::Host),
        RootState::Skipped(earlier, tag) => RootEnd::Cut(tag, CutFrom::Root(earlier)),
    }
}

impl Ended for PlainEnd {
    ghost seen = { λ e. e };

    fn geometry(&self) -> Geometry {
        self.geometry
    }

    fn root_count(&self) -> u8 {
        self.roots.len() as u8
    }

    fn root(&self, index: u8) -> RootEnd {
        root_end(&self.records, self.roots[index as usize])
    }

    fn accepted(&self) -> u32 {
        self.journal.accepted()
    }

    fn activation(&self, number: u32) -> ActivationRow {
        self.journal.activation(number)
    }

    fn task(&self, number: u32) -> TaskRow {
        self.journal.task(number)
    }

    fn nulls(&self) -> u64 {
        self.nulls
    }

    fn held(&self, class: u8) -> u32 {
        self.records.out(class)
    }

    fn evidence_class(&self) -> Option<u8> {
        self.evidence_class
    }

    fn evidence(&self, superblock: u32) -> SuperWord {
        self.evidence[superblock as usize]
    }
}
