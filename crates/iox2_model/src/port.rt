use crate::error::ModelError;
use crate::places::{occupant, set_place};
use iox2_machine::{ConnectionFailure, DegradationAction, ZeroCopyCreationError};
use std::alloc::Global;
use std::mem;

// What a publisher and a subscriber have alike.
#[derive(Drop)]
pub(crate) struct Port {
    pub(crate) place: usize,
    // At the place of a port of the other kind, the port with which it has a mailbox.
    pub(crate) ends: Vec<Option<usize>>,
    pub(crate) is_due: bool,
    // What is done about a connection that can't be allocated.
    degradation: DegradationAction,
}

impl Port {
    pub(crate) fn new(alloc: Global, place: usize, degradation: DegradationAction) -> Port {
        Port {
            place,
            ends: Vec::new(alloc),
            is_due: true,
            degradation,
        }
    }

    // The port with which it has a mailbox through its end at the place.
    pub(crate) fn end(&self, place: usize) -> Option<usize> {
        occupant(self.ends.as_slice(), place)
    }

    pub(crate) fn set_end(&mut self, place: usize, end: Option<usize>) -> Result<(), ModelError> {
        set_place(&mut self.ends, place, end)
    }

    // Whether it was due, which it isn't any more.
    pub(crate) fn take_due(&mut self) -> bool {
        mem::replace(&mut self.is_due, false)
    }

    // The failure of its update where a connection couldn't be allocated.
    pub(crate) fn failure(&self) -> Option<ConnectionFailure> {
        match self.degradation {
            DegradationAction::Ignore | DegradationAction::Warn => None,
            DegradationAction::DegradeAndFail => {
                let cause = ZeroCopyCreationError::OutOfMemory;
                Some(ConnectionFailure::FailedToEstablishConnection(cause))
            }
        }
    }
}
