//! A struct shows how many readings wait in it, so that its callers loop over it.
ghost use Rattle.std.specs.Prelude.{◌≡◌, ◌<◌, IfNone, IfOk, OnOk, OnSome};

use crate::failure::Failure;
use iox2_pubsub::{Domain, Subscriber};
use std::marker::Model;

/// A domain and a live subscriber. It shows how many readings wait for the subscriber.
pub struct Inbox {
    domain: Domain<u32, ()>,
    subscriber: Subscriber,
}

impl Model for Inbox {
    ghost use Rattle.std.specs.Prelude.{ℕ};
    ghost use Rattle.iox2_pubsub.specs.Live.{IsLiveSubscriber, IsSingleValued, waiting};

    ghost Value = { ℕ };

    ghost view = { λ inbox. waiting inbox.domain inbox.subscriber };

    ghost invariant = { λ inbox. IsSingleValued inbox.domain × IsLiveSubscriber inbox.domain inbox.subscriber };
}

impl Inbox {
    /// Receives the next reading that waits, and gives it back. Fewer wait afterwards, and none
    /// where there was none.
    pub fn next(&mut self) -> Result<Option<u32>, Failure>
        ensures fewer { IfOk result (λ reading. OnSome reading (self.new < self.old)) }
        ensures none { IfOk result (λ reading. IfNone reading (self.new ≡ 0)) }
    {
        let Some(sample) = self.subscriber.receive(&mut self.domain)? else {
            return Ok(None);
        };
        let celsius = *sample.payload(&self.domain);
        sample.release(&mut self.domain);
        Ok(Some(celsius))
    }

    /// Closes the subscriber.
    pub fn close(self) {
        let Inbox { domain, subscriber } = self;
        let mut domain = domain;
        subscriber.close(&mut domain);
    }
}

/// The warmest of the readings that wait, and `None` where none waits. None waits afterwards.
pub fn warmest(inbox: &mut Inbox) -> Result<Option<u32>, Failure>
    ensures emptied { OnOk result (inbox.new ≡ 0) }
{
    let mut warmest = None;
    while let Some(celsius) = inbox.next()? {
        if warmest < Some(celsius) {
            warmest = Some(celsius);
        }
    }
    Ok(warmest)
}
