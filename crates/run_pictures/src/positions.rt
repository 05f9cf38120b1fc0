//! Which lane a port has.
use crate::failure::Failure;
use std::alloc::Global;

/// By a port's id, the position of its lane.
#[derive(Drop)]
pub(crate) struct Positions {
    lanes: Vec<Option<usize>>,
}

impl Positions {
    pub(crate) fn new(alloc: Global) -> Positions {
        Positions {
            lanes: Vec::new(alloc),
        }
    }

    /// The lane of the port, if it has one.
    pub(crate) fn of(&self, port: usize) -> Option<usize> {
        self.lanes.get(port).copied().flatten()
    }

    /// Gives the port a lane.
    pub(crate) fn set(&mut self, port: usize, lane: usize) -> Result<(), Failure> {
        let missing = port.saturating_add(1).saturating_sub(self.lanes.len());
        for _ in 0..missing {
            self.lanes.push(None)?;
        }
        if let Some(position) = self.lanes.get_mut(port) {
            *position = Some(lane);
        }
        Ok(())
    }
}
