ghost use Rattle.std.specs.Prelude.{◌≡◌, ◌+◌, ◌<◌, ◌≤◌, ◌^◌, ◌++◌, ◌∷◌, IfOk, [], vec_capacity, vec_len};
ghost use Rattle.record_core.specs.EndSeen.{plan_of};
ghost use Rattle.run_model.specs.Placing.{words_of};
ghost use Rattle.plain_state.specs.Engine.{null_counted, unused_engine};

use kt_words::{Plan, SuperWord};
use plain_records::Records;
use plain_state::RootState;
use record_core::PlainJournal;
use std::alloc::Global;
use std::marker::Model;
use task_syntax::Memory;

const MOST_ROOTS: usize = 16;

const MOST_SUPERBLOCKS: usize = 1024;

/// A run under way.
#[derive(Drop)]
pub struct Engine {
    pub records: Records,
    pub journal: PlainJournal,
    pub roots: Vec<RootState>,
    pub nulls: u64,
    /// The class that the first null answer was about, and the superblocks as it saw them.
    pub evidence_class: Option<u8>,
    pub evidence: Vec<SuperWord>,
}

impl Model for Engine {
    ghost use Rattle.std.specs.Prelude.{vec_capacity};
    ghost use Rattle.plain_state.specs.Engine.{EngineState};
    ghost use Rattle.plain_engine.specs.EngineView.{engine_of, HasRooms};

    ghost Value = { EngineState };

    ghost view = { λ e. engine_of e.records e.journal e.roots.items e.nulls e.evidence_class
        e.evidence.items };

    ghost invariant = { λ e. HasRooms (vec_capacity e.roots) (vec_capacity e.evidence)
        e.evidence_class e.evidence.items };
}

impl Engine {
    /// Nothing has happened. All memory of the run is taken here.
    pub fn new(alloc: Global, plan: Plan) -> Result<Engine, Memory>
        ensures { IfOk result (λ made. made ≡ unused_engine (plan_of plan)) }
    {
        Ok(Engine {
            records: Records::new(alloc, plan.geometry)?,
            journal: PlainJournal::new(alloc, plan.limit)?,
            roots: Vec::with_capacity(alloc, MOST_ROOTS)?,
            nulls: 0,
            evidence_class: None,
            evidence: Vec::with_capacity(alloc, MOST_SUPERBLOCKS)?,
        })
    }

    /// Counts a null answer. The first keeps its class and the superblocks.
    #[cold]
    pub fn count_null(&mut self, class: u8)
        requires { self.old.nulls + 1 < 2 ^ 64 }
        ensures { self.new ≡ null_counted class self.old }
    {
        self.nulls += 1;
        if self.evidence_class.is_none() {
            self.evidence_class = Some(class);
            keep_words(&self.records, &mut self.evidence);
        }
    }
}

/// Keeps the words of all superblocks.
fn keep_words(records: &Records, words: &mut Vec<SuperWord>)
    requires none { words.old.items ≡ [] }
    requires room { 1024 ≤ vec_capacity words.old }
    ensures kept { words.new.items ≡ words_of records.now.pool }
    ensures room { vec_capacity words.old ≤ vec_capacity words.new }
{
    records.keeps();
    'superblocks: for superblock in 0..records.superblocks() {
        put(words, records.word(superblock));
    }
}

/// Puts an item at the end of a list that has memory for it.
pub fn put<T: Drop>(list: &mut Vec<T>, item: T)
    requires { vec_len list.old < vec_capacity list.old }
    ensures items { list.new.items ≡ list.old.items ++ item ∷ [] }
    ensures room { vec_capacity list.old ≤ vec_capacity list.new }
{
    let _fits = list.push(item);
}
