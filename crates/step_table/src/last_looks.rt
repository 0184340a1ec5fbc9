ghost use Rattle.std.specs.Prelude.{◌≡◌, ◌<◌, replicate, slice_index};
ghost use Rattle.step_table.specs.LastLooks.{Replaces};

/// The word of a superblock as a pass saw it last, and the class that it looked for.
#[derive(Debug, Clone, Copy, PartialEq, Eq)]
pub struct LastLook {
    pub word: u64,
    pub class: u8,
}

/// The last look at each superblock; 0 where there was none.
#[derive(Clone, Copy)]
pub(crate) struct LastLooks {
    words: [u64; 1024],
    classes: [u8; 1024],
}

impl LastLooks {
    pub(crate) fn none() -> LastLooks
        ensures words { result.words ≡ replicate 1024 0 }
        ensures classes { result.classes ≡ replicate 1024 0 }
    {
        LastLooks {
            words: [0; 1024],
            classes: [0; 1024],
        }
    }

    // Keeps a look in place of the one before it.
    pub(crate) fn keep(&mut self, superblock: u32, word: u64, class: u8)
        requires { superblock < 1024 }
        ensures { Replaces superblock word class self.old self.new }
    {
        self.words[superblock as usize] = word;
        self.classes[superblock as usize] = class;
    }

    pub(crate) fn at(&self, superblock: u32) -> LastLook
        requires { superblock < 1024 }
        ensures word { result.word ≡ slice_index self.now.words superblock }
        ensures class { result.class ≡ slice_index self.now.classes superblock }
    {
        LastLook {
            word: self.words[superblock as usize],
            class: self.classes[superblock as usize],
        }
    }
}
