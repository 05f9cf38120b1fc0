//! Calls on channels are recorded.

use super::Recording;
use super::answers::plain_reply;
use crate::numbers::{PublisherNumbers, SubscriberNumbers};
use crate::status::{NO_CONNECTION, OK};
use iox2_commands::{Command, PublisherChannelCall, Reply, SubscriberChannelCall};

impl Recording {
    /// A publisher was asked for its connection to the subscriber with this id, and has it at this place, if it
    /// has one, as the code says.
    pub fn connection(
        &mut self,
        publisher: &PublisherNumbers,
        receiver: u128,
        code: u32,
        place: usize,
    ) {
        let reply = match code {
            _ if !self.has_questions => return,
            OK => Reply::Place(Some(place)),
            NO_CONNECTION => Reply::Place(None),
            _ => Reply::Skipped,
        };
        let command = move |of| Command::ConnectionPlace { of, receiver };
        self.keep(publisher.name(), code, command, reply);
    }

    /// A publisher asked about a channel of one connection or closed it, or didn't, as the code says. The answer
    /// is a question's: 1 for yes.
    pub fn publisher_channel(
        &mut self,
        publisher: &PublisherNumbers,
        channel: usize,
        connection: usize,
        call: PublisherChannelCall,
        code: u32,
        answer: u32,
    ) {
        let reply = match (call, code) {
            (PublisherChannelCall::Close { .. }, _) => plain_reply(code),
            _ if !self.has_questions => return,
            (_, OK) => Reply::Has(answer != 0),
            _ => Reply::Skipped,
        };
        let command = move |of| Command::PublisherChannel {
            of,
            channel,
            connection,
            call,
        };
        self.keep(publisher.name(), code, command, reply);
    }

    /// The same of a subscriber, if anything is recorded: a call of which there is one copy for both, since
    /// the compiler inlines what it calls only there.
    #[inline(always)]
    pub fn asked_or_set(
        &mut self,
        subscriber: &SubscriberNumbers,
        channel: usize,
        call: SubscriberChannelCall,
        code: u32,
        answer: u32,
    ) {
        if self.is_on() {
            self.subscriber_channel(subscriber, channel, call, code, answer);
        }
    }

    /// A subscriber asked about a channel of its connections or changed it, or didn't, as the code says. The
    /// answer is a question's, or whether all were closed that were set: 1 for yes.
    #[cold]
    #[inline(never)]
    pub fn subscriber_channel(
        &mut self,
        subscriber: &SubscriberNumbers,
        channel: usize,
        call: SubscriberChannelCall,
        code: u32,
        answer: u32,
    ) {
        let reply = match (call, code) {
            (SubscriberChannelCall::SomeHasState { .. }, _) if !self.has_questions => return,
            (SubscriberChannelCall::SomeHasState { .. }, OK) => Reply::Has(answer != 0),
            (SubscriberChannelCall::SetState { .. }, OK) => Reply::WereClosed(answer != 0),
            _ => plain_reply(code),
        };
        let command = move |of| Command::SubscriberChannel { of, channel, call };
        self.keep(subscriber.name(), code, command, reply);
    }
}
