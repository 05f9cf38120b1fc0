//! Ports ask about the channels of their connections, and change them.
use crate::channel::{CLOSED, Channel};
use crate::error::ModelError;
use crate::model::Model;
use iox2_commands::{PublisherChannelCall, Reply, SubscriberChannelCall};

impl Model {
    // Each connection has a channel with this number.
    pub(crate) fn has_channel(&self, channel: usize) -> bool {
        channel < self.config.number_of_channels.max(1)
    }

    // The first place at which the publisher has an end to the receiver.
    pub(crate) fn connection_place(&self, of: usize, receiver: u128) -> Reply<u64, u64> {
        let Some(publisher) = self.live_publisher_at(of) else {
            return Reply::Skipped;
        };
        let ends = publisher.port.ends.as_slice();
        Reply::Place(
            ends.iter()
                .position(|end| end.is_some_and(|q| q as u128 == receiver)),
        )
    }

    // ---- one connection of a publisher, which may wait for a receiver

    pub(crate) fn publisher_channel(
        &mut self,
        of: usize,
        channel: usize,
        connection: usize,
        call: PublisherChannelCall,
    ) -> Result<Reply<u64, u64>, ModelError> {
        let Some(p) = self.publisher_at(of) else {
            return Ok(Reply::Skipped);
        };
        if !self.has_channel(channel) {
            return Ok(Reply::Skipped);
        }
        let end = self.sender_end(p, connection);
        let stands = end.map(|q| self.mailboxes.channel(p, q, channel));
        Ok(match call {
            PublisherChannelCall::HasState { state } => {
                Reply::Has(stands.is_some_and(|it| it.state == state))
            }
            PublisherChannelCall::HasDisconnectHint { state } => {
                Reply::Has(stands.is_some_and(|it| it.state == state && it.has_hint))
            }
            PublisherChannelCall::Close { expected } => {
                if let (Some(q), Some(it)) = (end, stands) {
                    if it.state == expected {
                        self.set_channel(p, q, it.with_state(CLOSED))?;
                    }
                }
                Reply::Done
            }
        })
    }

    // ---- all connections of a subscriber, with departed publishers too

    pub(crate) fn subscriber_channel(
        &mut self,
        of: usize,
        channel: usize,
        call: SubscriberChannelCall,
    ) -> Result<Reply<u64, u64>, ModelError> {
        let Some(q) = self.subscriber_at(of) else {
            return Ok(Reply::Skipped);
        };
        if !self.has_channel(channel) {
            return Ok(Reply::Skipped);
        }
        match call {
            SubscriberChannelCall::SetState { state } => self.set_state(q, channel, state),
            SubscriberChannelCall::SomeHasState { state } => self.some_has_state(q, channel, state),
            SubscriberChannelCall::Close { expected } => {
                self.change_where(q, channel, expected, |it| it.with_state(CLOSED))
            }
            SubscriberChannelCall::SetDisconnectHint { expected } => {
                self.change_where(q, channel, expected, |it| it.with_hint())
            }
        }
    }

    // The channels with this number of the subscriber's connections, each with its publisher.
    fn received_channels(
        &self,
        q: usize,
        channel: usize,
    ) -> Result<Vec<(usize, Channel)>, ModelError> {
        let mut found = Vec::new(self.alloc);
        if let Some(subscriber) = self.subscribers.get(q) {
            for p in subscriber.sources(self.alloc)?.iter() {
                found.push((*p, self.mailboxes.channel(*p, q, channel)))?;
            }
        }
        Ok(found)
    }

    // A closed channel comes into the state; whether each was closed.
    fn set_state(
        &mut self,
        q: usize,
        channel: usize,
        state: u64,
    ) -> Result<Reply<u64, u64>, ModelError> {
        let channels = self.received_channels(q, channel)?;
        let were_closed = channels.iter().all(|(_, it)| it.state == CLOSED);
        self.change_where(q, channel, CLOSED, move |it| it.with_state(state))?;
        Ok(Reply::WereClosed(were_closed))
    }

    fn some_has_state(
        &self,
        q: usize,
        channel: usize,
        state: u64,
    ) -> Result<Reply<u64, u64>, ModelError> {
        let channels = self.received_channels(q, channel)?;
        Ok(Reply::Has(channels.iter().any(|(_, it)| it.state == state)))
    }

    // The channel is changed so at each connection where it is in the state.
    fn change_where<F: Fn(Channel) -> Channel>(
        &mut self,
        q: usize,
        channel: usize,
        state: u64,
        change: F,
    ) -> Result<Reply<u64, u64>, ModelError>
        requires { F.IsAlwaysCallable change }
    {
        for (p, it) in self.received_channels(q, channel)?.iter() {
            if it.state == state {
                self.set_channel(*p, q, change(*it))?;
            }
        }
        Ok(Reply::Done)
    }

    fn set_channel(&mut self, p: usize, q: usize, channel: Channel) -> Result<(), ModelError> {
        self.mailboxes.made(p, q)?.set_channel(channel)
    }
}
