use crate::error::ModelError;
use std::alloc::Global;

// Things by number, counted from 1. One that is gone keeps its number.
#[derive(Drop)]
pub(crate) struct Numbered<T> {
    things: Vec<Option<T>>,
}

impl<T: Drop> Numbered<T> {
    pub(crate) fn new(alloc: Global) -> Result<Numbered<T>, ModelError> {
        let mut things = Vec::new(alloc);
        things.push(None)?;
        Ok(Numbered { things })
    }

    // The number of the next one.
    pub(crate) fn next(&self) -> usize {
        self.things.len()
    }

    // Gives the next number to the thing, or to none.
    pub(crate) fn push(&mut self, thing: Option<T>) -> Result<(), ModelError> {
        self.things.push(thing)?;
        Ok(())
    }

    pub(crate) fn get(&self, number: usize) -> Option<&T> {
        self.things.get(number)?.as_ref()
    }

    pub(crate) fn get_mut(&mut self, number: usize) -> Option<&mut T> {
        self.things.get_mut(number)?.as_mut()
    }

    // The thing, which is gone from then on.
    pub(crate) fn take(&mut self, number: usize) -> Option<T> {
        self.things.get_mut(number)?.take()
    }

    // Gives the number another thing.
    pub(crate) fn set(&mut self, number: usize, thing: T) {
        if let Some(place) = self.things.get_mut(number) {
            *place = Some(thing);
        }
    }
}
