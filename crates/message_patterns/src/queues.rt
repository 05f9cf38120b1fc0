//! A queue of numbers with a bound: a publisher and a subscriber of a domain of its own.
ghost use Rattle.std.specs.Prelude.{[], ◌∷◌, ◌++◌, ◌≡◌, ◌≤◌, ◌<◌, length, IfNone, IfOk, IfSome, IsOk, OnErr};
ghost use Rattle.iox2_pubsub.specs.Handles.{buffer_size_of, publisher_id};
ghost use Rattle.message_patterns.specs.Queues.{AreQueuePorts};
ghost use Rattle.message_patterns.specs.Values.{Wait};

use crate::Numbers;
use crate::failure::Failure;
use crate::passing::{read_one, send_loan};
use iox2_pubsub::{Publisher, Subscriber};
use std::marker::Model;

/// A queue of numbers with a bound, which clauses see as the list of these numbers.
pub struct Queue {
    domain: Numbers,
    publisher: Publisher,
    subscriber: Subscriber,
    count: usize,
}

impl Model for Queue {
    ghost use Rattle.message_patterns.specs.Queues.{IsQueue, QueueView, queue_view};

    ghost Value = { QueueView };

    ghost view = { λ queue. queue_view queue.domain queue.publisher queue.subscriber };

    ghost invariant = { λ queue. IsQueue queue.domain queue.publisher queue.subscriber queue.count };
}

impl Queue {
    /// An empty queue over these ports.
    pub fn over(domain: Numbers, publisher: Publisher, subscriber: Subscriber) -> Queue
        requires ports { AreQueuePorts domain publisher subscriber }
        requires drained { Wait domain (publisher_id publisher) subscriber [] }
        ensures { result ≡ record { items = []; capacity = buffer_size_of subscriber } }
    {
        Queue {
            domain,
            publisher,
            subscriber,
            count: 0,
        }
    }

    /// How many numbers are in it.
    pub fn len(&self) -> usize
        ensures count { result ≡ length (self.now.items) }
        ensures bound { result ≤ self.now.capacity }
    {
        self.count
    }

    /// How many it takes.
    pub fn capacity(&self) -> usize
        ensures { result ≡ self.now.capacity }
    {
        self.subscriber.buffer_size()
    }

    /// Puts a number behind the others. If the queue is full, gives it back.
    pub fn push(&mut self, value: u32) -> Result<Option<u32>, Failure>
        ensures taken { IfOk result (λ back. IfNone back (self.new.items ≡ self.old.items ++ value ∷ [])) }
        ensures full { IfOk result (λ back. IfSome back (λ it. (it ≡ value) × (length (self.old.items) ≡ self.old.capacity) × (self.new ≡ self.old))) }
        ensures failed { OnErr result (self.new ≡ self.old) }
        ensures capacity { self.new.capacity ≡ self.old.capacity }
    {
        if self.count >= self.subscriber.buffer_size() {
            return Ok(Some(value));
        }
        let loan = match self.publisher.loan_uninit(&mut self.domain) {
            Ok(loan) => loan,
            Err(error) => return Err(Failure::Loan(error)),
        };
        send_loan(&mut self.domain, loan, value);
        self.count += 1;
        Ok(None)
    }

    /// Takes the first number out. `None` where there is none. It isn't refused.
    pub fn pop(&mut self) -> Result<Option<u32>, Failure>
        ensures first { IfOk result (λ it. IfSome it (λ value. self.old.items ≡ value ∷ self.new.items)) }
        ensures none { IfOk result (λ it. IfNone it ((self.old.items ≡ []) × (self.new ≡ self.old))) }
        ensures granted { IsOk result }
        ensures capacity { self.new.capacity ≡ self.old.capacity }
    {
        let value = read_one(&mut self.domain, &self.subscriber)?;
        if value.is_some() {
            self.count -= 1;
        }
        Ok(value)
    }

    /// Closes the ports.
    pub fn close(self) {
        let Queue {
            domain,
            publisher,
            subscriber,
            count: _,
        } = self;
        let mut domain = domain;
        publisher.close(&mut domain);
        subscriber.close(&mut domain);
    }
}
