//! The segments of a publisher's slots.
use crate::error::ModelError;
use crate::model::Model;
use crate::records::{Publisher, Segments};
use iox2_machine::{AllocationStrategy, LoanError};

// How many segments a publisher makes at most, the first included.
const MOST_SEGMENTS: usize = 255;

impl Model {
    /// The greatest length of a loan of the publisher that the command at this position made, for
    /// which it needs no further segment; 0 where it made none that is live.
    pub fn max_slice_len_at(&self, of: usize) -> usize {
        match self.live_publisher_at(of) {
            Some(publisher) => publisher.segments.len,
            None => 0,
        }
    }

    /// Whether the publisher that the command at this position made is live and can't make a segment
    /// for loans of that length, whatever memory there is.
    pub fn exceeds_any_segment_at(&self, of: usize, len: usize) -> bool {
        match self.live_publisher_at(of) {
            Some(publisher) => self.next_segment(publisher, len).is_none(),
            None => false,
        }
    }

    pub(crate) fn live_publisher_at(&self, of: usize) -> Option<&Publisher> {
        let Some(p) = self.publisher_at(of) else {
            return None;
        };
        self.publishers.get(p)
    }

    // There is a free slot for a loan of that length in the last segment of the publisher, if need be
    // in a new one; or the refusal, and nothing changes.
    pub(crate) fn make_room(
        &mut self,
        p: usize,
        len: usize,
    ) -> Result<Result<(), LoanError>, ModelError> {
        let Some(publisher) = self.publishers.get(p) else {
            return Err(ModelError::NoRule);
        };
        let Segments {
            allocation,
            len: longest,
            made,
        } = publisher.segments;
        let slots = publisher.slots;
        if allocation == AllocationStrategy::Static {
            let is_full = self.held_count(p, None)? >= slots;
            return Ok(if is_full {
                Err(LoanError::OutOfMemory)
            } else {
                Ok(())
            });
        }
        if len <= longest && self.held_count(p, Some(made))? < slots {
            return Ok(Ok(()));
        }
        self.grow(p, len)
    }

    // The publisher gets a further segment, for a loan of that length.
    fn grow(&mut self, p: usize, len: usize) -> Result<Result<(), LoanError>, ModelError> {
        let Some(publisher) = self.publishers.get(p) else {
            return Err(ModelError::NoRule);
        };
        if publisher.segments.made >= MOST_SEGMENTS {
            return Ok(Err(LoanError::OutOfMemory));
        }
        let Some(segments) = self.next_segment(publisher, len) else {
            return Ok(Err(LoanError::InternalFailure));
        };
        if self.refuses_segment() {
            return Ok(Err(LoanError::InternalFailure));
        }
        if let Some(publisher) = self.publishers.get_mut(p) {
            publisher.segments = segments;
        }
        Ok(Ok(()))
    }

    // The publisher's segments with a further one for loans of that length. Nothing where its size
    // doesn't fit.
    fn next_segment(&self, publisher: &Publisher, len: usize) -> Option<Segments> {
        let segments = publisher.segments;
        let longest = segments.len.max(len);
        let len = match segments.allocation {
            AllocationStrategy::PowerOfTwo => longest.checked_next_power_of_two()?,
            _ => longest,
        };
        let elements = publisher.slots.checked_mul(len)?;
        elements.checked_mul(self.config.units_per_element)?;
        Some(Segments {
            len,
            made: segments.made.saturating_add(1),
            ..segments
        })
    }

    // How many messages and loans have a slot of the publisher's, or of one of its segments: its loans,
    // its history, and what waits or is borrowed in the mailboxes that it has an end to.
    fn held_count(&self, p: usize, segment: Option<usize>) -> Result<usize, ModelError> {
        let Some(publisher) = self.publishers.get(p) else {
            return Err(ModelError::NoRule);
        };
        let mut is_held = Vec::new(self.alloc);
        for _ in 0..self.loans.next() {
            is_held.push(false)?;
        }
        mark(&mut is_held, publisher.loans.as_slice());
        mark(&mut is_held, publisher.history.as_slice());
        for end in publisher.port.ends.as_slice() {
            if let Some(mailbox) = end.and_then(|q| self.mailboxes.get(p, q)) {
                mark(&mut is_held, mailbox.waiting());
                mark(&mut is_held, mailbox.borrowed());
                for elsewhere in mailbox.elsewhere() {
                    mark(&mut is_held, &[elsewhere.message]);
                }
            }
        }
        let mut count = 0usize;
        for message in 0..is_held.len() {
            let lies_there = segment.is_none() || segment == self.segments.get(message).copied();
            if lies_there && is_held.get(message) == Some(&true) {
                count = count.saturating_add(1);
            }
        }
        Ok(count)
    }
}

// Marks these numbers.
fn mark(marks: &mut Vec<bool>, numbers: &[usize]) {
    for number in numbers {
        if let Some(place) = marks.get_mut(*number) {
            *place = true;
        }
    }
}
