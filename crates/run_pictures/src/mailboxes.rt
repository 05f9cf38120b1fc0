//! What is in mailboxes, and what has changed there since a command before.
use crate::failure::Failure;
use crate::holders::Holders;
use crate::story::{End, Stay};
use iox2_model::Model;
use std::alloc::Global;

/// The visits of the messages that are in mailboxes, by the publisher's id and then the subscriber's.
#[derive(Drop)]
pub(crate) struct Mailboxes {
    alloc: Global,
    // Positions in the list of all visits.
    rows: Vec<Vec<Vec<usize>>>,
    waiting: usize,
}

impl Mailboxes {
    pub(crate) fn new(alloc: Global) -> Mailboxes {
        Mailboxes {
            alloc,
            rows: Vec::new(alloc),
            waiting: 0,
        }
    }

    /// How many messages wait in all mailboxes.
    pub(crate) fn waiting(&self) -> usize {
        self.waiting
    }

    /// Whether anything of the publisher is in the subscriber's mailbox.
    pub(crate) fn is_used(&self, publisher: usize, subscriber: usize) -> bool {
        match self.rows.get(publisher) {
            None => false,
            Some(row) => row.get(subscriber).map_or(false, |it| !it.is_empty()),
        }
    }

    // The visits in a mailbox, which are taken out.
    fn take(&mut self, publisher: usize, subscriber: usize) -> Result<Vec<usize>, Failure> {
        let rows = publisher.saturating_add(1).saturating_sub(self.rows.len());
        for _ in 0..rows {
            self.rows.push(Vec::new(self.alloc))?;
        }
        let alloc = self.alloc;
        let Some(row) = self.rows.get_mut(publisher) else {
            return Ok(Vec::new(alloc));
        };
        let boxes = subscriber.saturating_add(1).saturating_sub(row.len());
        for _ in 0..boxes {
            row.push(Vec::new(alloc))?;
        }
        Ok(match row.get_mut(subscriber) {
            Some(found) => std::mem::replace(found, Vec::new(alloc)),
            None => Vec::new(alloc),
        })
    }

    fn put(&mut self, publisher: usize, subscriber: usize, visits: Vec<usize>) {
        if let Some(row) = self.rows.get_mut(publisher) {
            if let Some(found) = row.get_mut(subscriber) {
                *found = visits;
            }
        }
    }

    /// Follows what a command did to the mailbox. `sends` says that it sent a message of the publisher.
    pub(crate) fn follow(
        &mut self,
        model: &Model,
        at: usize,
        publisher: usize,
        subscriber: usize,
        sends: bool,
        visits: &mut Vec<Stay>,
        holders: &mut Holders,
    ) -> Result<(), Failure> {
        let is_empty = model.waiting(publisher, subscriber).is_empty()
            && model.elsewhere(publisher, subscriber).is_empty();
        if !self.is_used(publisher, subscriber) && is_empty {
            return Ok(());
        }
        let before = self.take(publisher, subscriber)?;
        let mut now = Vec::new(self.alloc);
        for index in before.iter() {
            if let Some(visit) = visits.get_mut(*index) {
                if self.goes_on(model, at, sends, visit) {
                    now.push(*index)?;
                } else {
                    holders.let_go(visit.message);
                }
            }
        }
        for message in model.waiting(publisher, subscriber) {
            let visit = Stay::new(*message, publisher, subscriber, at);
            self.note(&mut now, visit, visits, holders)?;
        }
        for it in model.elsewhere(publisher, subscriber) {
            let visit = Stay {
                channel: it.channel,
                ..Stay::new(it.message, publisher, subscriber, at)
            };
            self.note(&mut now, visit, visits, holders)?;
        }
        self.put(publisher, subscriber, now);
        Ok(())
    }

    // Notes the visit of a message that waits, if it is new.
    fn note(
        &mut self,
        now: &mut Vec<usize>,
        visit: Stay,
        visits: &mut Vec<Stay>,
        holders: &mut Holders,
    ) -> Result<(), Failure> {
        if !has_message(now.as_slice(), visits.as_slice(), visit.message) {
            now.push(visits.len())?;
            holders.hold(visit.message)?;
            self.waiting = self.waiting.saturating_add(1);
            visits.push(visit)?;
        }
        Ok(())
    }

    // Follows one message, and returns whether it is in the mailbox still.
    fn goes_on(&mut self, model: &Model, at: usize, sends: bool, visit: &mut Stay) -> bool {
        let waits = waits_there(model, visit);
        let is_borrowed = model
            .borrowed(visit.publisher, visit.port)
            .contains(&visit.message);
        let waited = visit.turn.is_none();
        if waited && !waits {
            self.waiting = self.waiting.saturating_sub(1);
        }
        if waits {
            return true;
        }
        if is_borrowed {
            if waited {
                visit.turn = Some(at);
            }
            return true;
        }
        visit.to = Some(at);
        visit.end = if !waited {
            End::Released
        } else if sends {
            End::Overwritten
        } else {
            End::Lost
        };
        false
    }
}

// Whether the message of the visit waits in its channel.
fn waits_there(model: &Model, visit: &Stay) -> bool {
    let waiting = model.waiting(visit.publisher, visit.port);
    let elsewhere = model.elsewhere(visit.publisher, visit.port);
    waiting.contains(&visit.message) || elsewhere.iter().any(|it| it.message == visit.message)
}

// Whether one of these visits is that of the message.
fn has_message(indices: &[usize], visits: &[Stay], message: usize) -> bool {
    for index in indices {
        if let Some(visit) = visits.get(*index) {
            if visit.message == message {
                return true;
            }
        }
    }
    false
}
