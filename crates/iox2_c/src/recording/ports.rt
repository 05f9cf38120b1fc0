//! Calls of ports are recorded.

use super::Recording;
use super::answers::{BytesReply, question_reply, update_reply};
use crate::config::strategy_of;
use crate::numbers::{PublisherNumbers, SubscriberNumbers};
use crate::options::{PublisherOptions, SubscriberOptions, allocation_of, degradation_of};
use call_recorder::Name;
use iox2_commands::{Command, NewPublisher, Reply};
use iox2_pubsub::{
    BackpressureAction, BackpressureHandler, ConnectionFailure, DegradationAction,
    DegradationHandler,
};

impl Recording {
    /// A publisher with these options was asked for, and got this reply.
    pub fn publisher(&mut self, options: &PublisherOptions, reply: BytesReply) {
        let Some(recorder) = &mut self.recorder else {
            return;
        };
        let command = Command::CreatePublisher(NewPublisher {
            loans: options.max_loaned_samples,
            strategy: strategy_of(options.backpressure_strategy),
            allocation: allocation_of(options.allocation_strategy),
            initial_max_slice_len: options.initial_max_slice_len,
            override_slots: asked_slots(options.preallocated_samples),
            degradation: degradation_action(options.degradation),
            backpressure: handler_action(options),
        });
        match reply {
            Reply::PublisherMade(id) => {
                recorder.keep_maker(Name::Publisher(id.value()), command, reply);
            }
            _ => recorder.keep(command, reply),
        }
    }

    /// A subscriber with these options was asked for, and got this reply.
    pub fn subscriber(&mut self, options: &SubscriberOptions, reply: BytesReply) {
        let Some(recorder) = &mut self.recorder else {
            return;
        };
        let command = Command::CreateSubscriber {
            buffer: Some(options.buffer_size),
            degradation: degradation_action(options.degradation),
        };
        match reply {
            Reply::SubscriberMade(id) => {
                recorder.keep_maker(Name::Subscriber(id.value()), command, reply);
            }
            _ => recorder.keep(command, reply),
        }
    }

    /// A port was closed, or not, as the code says.
    pub fn close(&mut self, name: Name, code: u32) {
        self.keep_last(name, code, |of| Command::Close { of });
    }

    /// The connections of a port were updated, or not, as the code and the failure say.
    pub fn update(&mut self, name: Name, code: u32, failed: Option<ConnectionFailure>) {
        let reply = update_reply(code, failed);
        self.keep(name, code, |of| Command::Update { of }, reply);
    }

    /// A subscriber was asked whether a message waits.
    pub fn question(
        &mut self,
        subscriber: &SubscriberNumbers,
        code: u32,
        waits: u32,
        failed: Option<ConnectionFailure>,
    ) {
        self.keep(
            subscriber.name(),
            code,
            |of| Command::HasSamples { of },
            question_reply(code, waits, failed),
        );
    }
}

impl PublisherNumbers {
    /// What a recorder calls it.
    pub fn name(&self) -> Name {
        Name::Publisher(self.id.get())
    }
}

impl SubscriberNumbers {
    /// What a recorder calls it.
    pub fn name(&self) -> Name {
        Name::Subscriber(self.id.get())
    }
}

// For how many slots a publisher asks: 0 means that it asks for none.
fn asked_slots(slots: usize) -> Option<usize> {
    match slots {
        0 => None,
        slots => Some(slots),
    }
}

// What a port does where memory for a connection is refused.
fn degradation_action(number: u32) -> DegradationAction {
    match degradation_of(number) {
        DegradationHandler::Fixed(action) => action,
        DegradationHandler::Custom(_) => DegradationAction::Warn,
    }
}

// What always answers at a full buffer.
fn handler_action(options: &PublisherOptions) -> Option<BackpressureAction> {
    match options.handler()? {
        BackpressureHandler::Fixed(action) => Some(action),
        BackpressureHandler::Custom(_) => None,
    }
}
