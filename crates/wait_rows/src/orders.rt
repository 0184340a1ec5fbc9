use std::alloc::{AllocError, Global};

/// Lists of units, kept by hand in the order in which they joined.
#[derive(Drop)]
pub struct Orders {
    lists: Vec<Vec<u32>>,
}

impl Orders {
    /// So many empty lists.
    pub fn new(alloc: Global, count: usize) -> Result<Orders, AllocError> {
        let mut lists = Vec::with_capacity(alloc, count)?;
        for list in 0..count {
            lists.push(Vec::new(alloc))?;
        }
        Ok(Orders { lists })
    }

    /// A unit joins a list.
    pub fn push(&mut self, list: u32, unit: u32) -> Result<(), AllocError> {
        if let Some(units) = self.lists.get_mut(list as usize) {
            units.push(unit)?;
        }
        Ok(())
    }

    /// The last that joined leaves the list.
    pub fn pop(&mut self, list: u32) -> Option<u32> {
        self.lists.get_mut(list as usize)?.pop()
    }
}
