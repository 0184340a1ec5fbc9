ghost use Rattle.std.specs.Prelude.{◌≡◌, ◌↔◌, ◌<◌, ◌≤◌, IsNone, IfSome, length, if◌then◌else◌};
ghost use Rattle.pool_core.specs.Vacancies.{noted, room_set, IsFirstVacancy, IsNoneSet, AreUnusedVacancies};

use crate::superblock_set::SuperblockSet;

/// Which superblocks can give a block: those of each class with room, and those that are empty.
#[derive(Drop)]
pub struct Vacancies {
    with_room: [SuperblockSet; 4],
    empty: SuperblockSet,
}

impl Vacancies {
    /// So many superblocks, all empty and of class 0.
    pub fn new(superblocks: u32) -> Vacancies
        requires { superblocks ≤ 1024 }
        ensures { AreUnusedVacancies superblocks result }
    {
        Vacancies {
            with_room: [
                SuperblockSet::below(superblocks),
                SuperblockSet::below(0),
                SuperblockSet::below(0),
                SuperblockSet::below(0),
            ],
            empty: SuperblockSet::below(superblocks),
        }
    }

    /// The first superblock of the class with room, or else the first empty one.
    pub fn choose(&self, class: u8) -> Option<u32>
        requires { class ≤ 3 }
        ensures first { IfSome result (λ superblock. IsFirstVacancy self.now class superblock) }
        ensures within { IfSome result (λ superblock. superblock < 1024) }
        ensures none { IsNone result ↔ (IsNoneSet (room_set self.now class) × IsNoneSet self.now.empty) }
    {
        let with_room = self.with_room[class as usize].first();
        if with_room.is_some() {
            return with_room;
        }
        self.empty.first()
    }

    /// Notes the same, but where nothing of it changed: `changed` tells that something did, and `same`
    /// that nothing else did.
    pub fn note_change(
        &mut self,
        superblock: u32,
        was: u8,
        class: u8,
        has_room: bool,
        is_empty: bool,
        changed: bool,
        same: bool,
    )
        requires superblock { superblock < 1024 }
        requires was { was ≤ 3 }
        requires class { class ≤ 3 }
        ensures { self.new ≡ (if changed then noted self.old superblock was class has_room is_empty
            else (if same then self.old
            else noted self.old superblock was class has_room is_empty)) }
    {
        if changed || !same {
            self.note(superblock, was, class, has_room, is_empty);
        }
    }

    /// Notes that a superblock, which was of one class, is of this class and has room and is empty or not.
    pub fn note(&mut self, superblock: u32, was: u8, class: u8, has_room: bool, is_empty: bool)
        requires superblock { superblock < 1024 }
        requires was { was ≤ 3 }
        requires class { class ≤ 3 }
        ensures { self.new ≡ noted self.old superblock was class has_room is_empty }
    {
        self.with_room[was as usize].put(superblock, false);
        self.with_room[class as usize].put(superblock, has_room);
        self.empty.put(superblock, is_empty);
    }
}
