use crate::channel::Channel;
use crate::error::ModelError;
use crate::views::Elsewhere;
use std::alloc::Global;

// What is between one publisher and one subscriber: numbers of messages, oldest first. What waits is
// received from channel 0 alone.
#[derive(Drop)]
pub(crate) struct Mailbox {
    waiting: Vec<usize>,
    borrowed: Vec<usize>,
    // What waits in all other channels.
    elsewhere: Vec<Elsewhere>,
    // The channels that aren't new any more.
    channels: Vec<Channel>,
}

impl Mailbox {
    pub(crate) fn new(alloc: Global) -> Mailbox {
        Mailbox {
            waiting: Vec::new(alloc),
            borrowed: Vec::new(alloc),
            elsewhere: Vec::new(alloc),
            channels: Vec::new(alloc),
        }
    }

    pub(crate) fn waiting(&self) -> &[usize] {
        self.waiting.as_slice()
    }

    pub(crate) fn borrowed(&self) -> &[usize] {
        self.borrowed.as_slice()
    }

    pub(crate) fn elsewhere(&self) -> &[Elsewhere] {
        self.elsewhere.as_slice()
    }

    pub(crate) fn has_data(&self) -> bool {
        !self.waiting.is_empty()
    }

    // Something waits or is borrowed, in whatever channel.
    pub(crate) fn has_messages(&self) -> bool {
        self.has_data() || self.has_borrows() || !self.elsewhere.is_empty()
    }

    pub(crate) fn has_borrows(&self) -> bool {
        !self.borrowed.is_empty()
    }

    pub(crate) fn is_borrowed(&self, message: usize) -> bool {
        self.borrowed.as_slice().contains(&message)
    }

    // Something waits, and fewer messages than the limit are borrowed.
    pub(crate) fn can_receive(&self, limit: usize) -> bool {
        self.has_data() && self.borrowed.len() < limit
    }

    pub(crate) fn has_room(&self, channel: usize, buffer: usize) -> bool {
        self.waiting_count(channel) < buffer
    }

    fn waiting_count(&self, channel: usize) -> usize {
        if channel == 0 {
            return self.waiting.len();
        }
        self.elsewhere
            .iter()
            .filter(|it| it.channel == channel)
            .count()
    }

    // The message waits as the last in the channel; where there was no room the first there leaves.
    pub(crate) fn append(
        &mut self,
        channel: usize,
        buffer: usize,
        message: usize,
    ) -> Result<(), ModelError> {
        if !self.has_room(channel, buffer) {
            self.drop_first(channel);
        }
        if channel == 0 {
            self.waiting.push(message)?;
        } else {
            self.elsewhere.push(Elsewhere { channel, message })?;
        }
        Ok(())
    }

    // The message that waits longest in the channel leaves.
    fn drop_first(&mut self, channel: usize) {
        if channel > 0 {
            if let Some(first) = self.elsewhere.iter().position(|it| it.channel == channel) {
                self.elsewhere.remove(first);
            }
        } else if !self.waiting.is_empty() {
            self.waiting.remove(0);
        }
    }

    // What waits goes, in each channel.
    pub(crate) fn drop_waiting(&mut self) {
        self.waiting.clear();
        self.elsewhere.clear();
    }

    // The channel with this number, which is new unless it was changed.
    pub(crate) fn channel(&self, number: usize) -> Channel {
        for channel in self.channels.as_slice() {
            if channel.number == number {
                return *channel;
            }
        }
        Channel::new(number)
    }

    pub(crate) fn set_channel(&mut self, channel: Channel) -> Result<(), ModelError> {
        self.channels.retain(|other| other.number != channel.number);
        self.channels.push(channel)?;
        Ok(())
    }

    // These messages wait in channel 0, and no others.
    pub(crate) fn set_waiting(&mut self, messages: &[usize]) -> Result<(), ModelError> {
        self.waiting.clear();
        self.waiting.extend_from_slice(messages)?;
        Ok(())
    }

    // The first message that waits becomes borrowed.
    pub(crate) fn borrow_first(&mut self) -> Result<usize, ModelError> {
        if self.waiting.is_empty() {
            return Err(ModelError::NoRule);
        }
        let message = self.waiting.remove(0);
        self.borrowed.push(message)?;
        Ok(message)
    }

    pub(crate) fn release(&mut self, message: usize) {
        self.borrowed.retain(|other| *other != message);
    }
}
