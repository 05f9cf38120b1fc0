//! The model carries out the commands of a recording, and what it does is noted.
use crate::failure::Failure;
use crate::holders::Holders;
use crate::mailboxes::Mailboxes;
use crate::story::{End, Mark, MarkKind, Point, Port, Stay, Story};
use iox2_commands::{Command, PublisherChannelCall, Reply, SubscriberChannelCall};
use iox2_machine::UniquePublisherId;
use iox2_model::{Memory, Model, Thing};
use recordings::{Recording, push_command, push_reply};
use std::alloc::Global;

/// What became of ports and messages in the recording.
pub(crate) fn story_of(alloc: Global, recording: &Recording) -> Result<Story, Failure> {
    let mut follower = Follower::new(alloc, recording)?;
    for (command, reply) in recording.commands.iter().zip(recording.replies.iter()) {
        follower.step(alloc, *command, reply.as_str())?;
    }
    follower.note_values()?;
    let Follower { story, .. } = follower;
    Ok(story)
}

#[derive(Drop)]
struct Follower {
    model: Model,
    story: Story,
    mailboxes: Mailboxes,
    holders: Holders,
    // Of the messages that were sent to one connection.
    aims: Vec<Aim>,
    // By id, the history that a publisher had after its last command.
    histories: Vec<Vec<usize>>,
}

// The one subscriber to which a message was sent, if there is one, and the channel.
#[derive(Clone, Copy)]
struct Aim {
    message: usize,
    subscriber: Option<usize>,
    channel: usize,
}

// Whom a command is on: the publisher and the subscriber are 0 where there are none.
#[derive(Clone, Copy)]
struct Object {
    publisher: usize,
    subscriber: usize,
    message: usize,
}

impl Object {
    fn port(self) -> usize {
        self.publisher.max(self.subscriber)
    }
}

impl Follower {
    fn new(alloc: Global, recording: &Recording) -> Result<Follower, Failure> {
        Ok(Follower {
            model: Model::new(alloc, recording.config, Memory::ample())?,
            story: Story {
                commands: Vec::new(alloc),
                replies: Vec::new(alloc),
                ports: Vec::new(alloc),
                loans: Vec::new(alloc),
                visits: Vec::new(alloc),
                marks: Vec::new(alloc),
                points: Vec::new(alloc),
                values: Vec::new(alloc),
            },
            mailboxes: Mailboxes::new(alloc),
            holders: Holders::new(alloc),
            aims: Vec::new(alloc),
            histories: Vec::new(alloc),
        })
    }

    fn step(
        &mut self,
        alloc: Global,
        command: Command<u64, u64>,
        recorded: &str,
    ) -> Result<(), Failure> {
        let at = self.story.commands.len();
        let messages = self.model.message_count();
        let mut named = command;
        let object = self.object_of(named.of_mut().map(|of| *of));
        let reply = self.model.carry_out(command, given(recorded))?;
        self.note_texts(alloc, &command, &reply, recorded, object)?;
        self.note_made(at)?;
        self.note_loan(at, command, &reply, object, messages)?;
        self.note_aim(command, &reply, object)?;
        self.note_marks(at, command, &reply, object)?;
        self.follow_mailboxes(at, command, object)?;
        self.note_discards(at, &reply, object, messages)?;
        self.follow_history(alloc, object.publisher)?;
        self.story.points.push(Point {
            slots: self.holders.used(),
            waiting: self.mailboxes.waiting(),
        })?;
        Ok(())
    }

    // What each message has at the end.
    fn note_values(&mut self) -> Result<(), Failure> {
        for message in 0..self.model.message_count() {
            let value = self.model.first_value(message).unwrap_or(0);
            let count = self.model.value_count(message);
            self.story.values.push((value, count))?;
        }
        Ok(())
    }

    fn object_of(&self, of: Option<usize>) -> Object {
        let mut object = Object {
            publisher: 0,
            subscriber: 0,
            message: 0,
        };
        match of.map_or(Thing::Nothing, |of| self.model.thing_at(of)) {
            Thing::Nothing => {}
            Thing::Publisher(id) => object.publisher = id,
            Thing::Subscriber(id) => object.subscriber = id,
            Thing::Loan(message) => {
                object.publisher = self.lender_of(message);
                object.message = message;
            }
            Thing::BlockedSend { publisher, message } => {
                object.publisher = publisher;
                object.message = message;
            }
            Thing::Sample {
                publisher,
                subscriber,
                message,
            } => {
                object = Object {
                    publisher,
                    subscriber,
                    message,
                }
            }
        }
        object
    }

    fn lender_of(&self, message: usize) -> usize {
        for loan in self.story.loans.iter() {
            if loan.message == message {
                return loan.publisher;
            }
        }
        0
    }

    fn mark(&mut self, at: usize, port: usize, kind: MarkKind) -> Result<(), Failure> {
        self.story.marks.push(Mark { at, port, kind })?;
        Ok(())
    }

    fn note_texts(
        &mut self,
        alloc: Global,
        command: &Command<u64, u64>,
        reply: &Reply<u64, u64>,
        recorded: &str,
        object: Object,
    ) -> Result<(), Failure> {
        let at = self.story.commands.len();
        let mut text = String::new(alloc);
        push_command(&mut text, command)?;
        self.story.commands.push(text)?;
        let mut text = String::new(alloc);
        push_reply(&mut text, reply)?;
        if text.as_str() != recorded {
            text.push_str(", but recorded was: ")?;
            text.push_str(recorded)?;
            self.mark(at, object.port(), MarkKind::OtherReply)?;
        }
        self.story.replies.push(text)?;
        Ok(())
    }

    // A port that the command made.
    fn note_made(&mut self, at: usize) -> Result<(), Failure> {
        let (id, is_publisher) = match self.model.thing_at(at) {
            Thing::Publisher(id) => (id, true),
            Thing::Subscriber(id) => (id, false),
            _ => return Ok(()),
        };
        self.story.ports.push(Port {
            id,
            is_publisher,
            from: at,
            to: None,
        })?;
        Ok(())
    }

    // A loan that the command took or ended.
    fn note_loan(
        &mut self,
        at: usize,
        command: Command<u64, u64>,
        reply: &Reply<u64, u64>,
        object: Object,
        messages: usize,
    ) -> Result<(), Failure> {
        if self.model.message_count() > messages {
            self.take_loan(at, object.publisher, messages)?;
        }
        let message = match command {
            Command::SendCopy { .. } => messages,
            _ => object.message,
        };
        match reply {
            Reply::Blocked => self.block_loan(at, message),
            Reply::Delivered(_) => self.end_loan(at, message, End::Sent),
            Reply::SendRefused(_) => self.end_loan(at, message, End::Refused),
            Reply::Done => {
                if is_discard(command) {
                    self.end_loan(at, message, End::Discarded);
                }
            }
            _ => {}
        }
        Ok(())
    }

    // Where a loan was sent to one connection.
    fn note_aim(
        &mut self,
        command: Command<u64, u64>,
        reply: &Reply<u64, u64>,
        object: Object,
    ) -> Result<(), Failure> {
        if let Command::SendToConnection {
            channel,
            connection,
            ..
        } = command
        {
            if *reply != Reply::Skipped {
                self.aims.push(Aim {
                    message: object.message,
                    subscriber: self.model.receiver_at(object.publisher, connection),
                    channel,
                })?;
            }
        }
        Ok(())
    }

    fn take_loan(&mut self, at: usize, publisher: usize, message: usize) -> Result<(), Failure> {
        self.holders.hold(message)?;
        let loan = Stay::new(message, publisher, publisher, at);
        self.story.loans.push(loan)?;
        Ok(())
    }

    fn block_loan(&mut self, at: usize, message: usize) {
        for index in 0..self.story.loans.len() {
            if let Some(loan) = self.story.loans.get_mut(index) {
                if loan.message == message && loan.turn.is_none() {
                    loan.turn = Some(at);
                }
            }
        }
    }

    fn end_loan(&mut self, at: usize, message: usize, end: End) {
        for index in 0..self.story.loans.len() {
            if let Some(loan) = self.story.loans.get_mut(index) {
                if loan.message == message && loan.to.is_none() {
                    loan.to = Some(at);
                    loan.end = end;
                    self.holders.let_go(message);
                }
            }
        }
    }

    fn note_marks(
        &mut self,
        at: usize,
        command: Command<u64, u64>,
        reply: &Reply<u64, u64>,
        object: Object,
    ) -> Result<(), Failure> {
        let port = object.port();
        match reply {
            Reply::Skipped => self.mark(at, port, MarkKind::Skipped),
            Reply::Blocked => self.mark(at, port, MarkKind::Blocked),
            Reply::PublisherRefused(_)
            | Reply::SubscriberRefused(_)
            | Reply::LoanRefused(_)
            | Reply::SendRefused(_)
            | Reply::UpdateRefused(_)
            | Reply::ReceiveRefused(_) => self.mark(at, port, MarkKind::Refused),
            Reply::Done => match command {
                Command::Close { .. } => self.close_port(at, object),
                _ if changes_channel(command) => self.mark(at, port, MarkKind::Channel),
                _ => Ok(()),
            },
            Reply::WereClosed(_) => self.mark(at, port, MarkKind::Channel),
            _ => Ok(()),
        }
    }

    // The port is closed. A subscriber keeps the connection of a publisher whose messages it has.
    fn close_port(&mut self, at: usize, object: Object) -> Result<(), Failure> {
        let id = object.port();
        self.end_port(at, id);
        self.mark(at, id, MarkKind::Closed)?;
        for subscriber in 0..self.model.port_count() {
            if self.mailboxes.is_used(object.publisher, subscriber) {
                self.mark(at, subscriber, MarkKind::Expired)?;
            }
        }
        Ok(())
    }

    fn end_port(&mut self, at: usize, id: usize) {
        for index in 0..self.story.ports.len() {
            if let Some(port) = self.story.ports.get_mut(index) {
                if port.id == id {
                    port.to = Some(at);
                }
            }
        }
    }

    // The mailboxes of the ports that the command is on.
    fn follow_mailboxes(
        &mut self,
        at: usize,
        command: Command<u64, u64>,
        object: Object,
    ) -> Result<(), Failure> {
        let sends = match command {
            Command::Send { .. }
            | Command::SendToConnection { .. }
            | Command::SendCopy { .. }
            | Command::Retry { .. }
            | Command::GiveUp { .. } => true,
            _ => false,
        };
        for port in 1..self.model.port_count() {
            if object.publisher != 0 {
                self.follow_mailbox(at, object.publisher, port, sends)?;
            }
            if object.subscriber != 0 && port != object.publisher {
                self.follow_mailbox(at, port, object.subscriber, false)?;
            }
        }
        Ok(())
    }

    fn follow_mailbox(
        &mut self,
        at: usize,
        publisher: usize,
        subscriber: usize,
        sends: bool,
    ) -> Result<(), Failure> {
        let overwrites = sends && self.model.is_open_subscriber(subscriber);
        self.mailboxes.follow(
            &self.model,
            at,
            publisher,
            subscriber,
            overwrites,
            &mut self.story.visits,
            &mut self.holders,
        )
    }

    // Where a send has ended, connected subscribers that the message didn't reach.
    fn note_discards(
        &mut self,
        at: usize,
        reply: &Reply<u64, u64>,
        object: Object,
        messages: usize,
    ) -> Result<(), Failure> {
        let message = if object.message == 0 {
            messages
        } else {
            object.message
        };
        if !ends_send(reply) || self.model.value_count(message) == 0 {
            return Ok(());
        }
        let since = self.first_sent(at, message);
        let aim = self.aims.iter().find(|aim| aim.message == message).copied();
        for subscriber in 1..self.model.port_count() {
            let is_aimed_at = aim.is_none_or(|aim| aim.subscriber == Some(subscriber));
            if is_aimed_at && self.misses(object.publisher, subscriber, message, since) {
                let channel = aim.map_or(0, |aim| aim.channel);
                let kind = self.why_missed(object.publisher, subscriber, channel);
                self.mark(at, subscriber, kind)?;
            }
        }
        Ok(())
    }

    fn why_missed(&self, publisher: usize, subscriber: usize, channel: usize) -> MarkKind {
        if self.model.is_closed(publisher, subscriber, channel) {
            MarkKind::PassedOver
        } else {
            MarkKind::Discarded
        }
    }

    // Whether a connected subscriber hasn't got the message since then.
    fn misses(&self, publisher: usize, subscriber: usize, message: usize, since: usize) -> bool {
        self.model.delivers_to(publisher, subscriber)
            && self.model.is_open_subscriber(subscriber)
            && !self.has_visited(subscriber, message, since)
    }

    // When the message was sent that has ended now: it may have been blocked before.
    fn first_sent(&self, at: usize, message: usize) -> usize {
        for loan in self.story.loans.iter().rev() {
            if loan.message == message {
                return loan.turn.unwrap_or(at);
            }
        }
        at
    }

    // Whether the message has come to the subscriber since then. The last visits are last.
    fn has_visited(&self, subscriber: usize, message: usize, since: usize) -> bool {
        for visit in self.story.visits.iter().rev() {
            if visit.from < since {
                return false;
            }
            if visit.message == message && visit.port == subscriber {
                return true;
            }
        }
        false
    }

    // The messages in the publisher's history are held there.
    fn follow_history(&mut self, alloc: Global, publisher: usize) -> Result<(), Failure> {
        let missing = publisher
            .saturating_add(1)
            .saturating_sub(self.histories.len());
        for _ in 0..missing {
            self.histories.push(Vec::new(alloc))?;
        }
        let now = Vec::from_slice(alloc, self.model.history_of(publisher))?;
        for message in now.iter() {
            self.holders.hold(*message)?;
        }
        if let Some(before) = self.histories.get_mut(publisher) {
            for message in before.iter() {
                self.holders.let_go(*message);
            }
            *before = now;
        }
        Ok(())
    }
}

// The reply that the model is to have where it has a choice: the publisher of a sample.
fn given(recorded: &str) -> Option<Reply<u64, u64>> {
    let Some(origin) = recorded.strip_prefix("sample ") else {
        return None;
    };
    match origin.parse::<u128>() {
        Ok(origin) => Some(Reply::Sample(UniquePublisherId::new(origin))),
        Err(_) => None,
    }
}

// Whether a command that was done changes channels.
fn changes_channel(command: Command<u64, u64>) -> bool {
    match command {
        Command::PublisherChannel { call, .. } => match call {
            PublisherChannelCall::Close { .. } => true,
            _ => false,
        },
        Command::SubscriberChannel { call, .. } => match call {
            SubscriberChannelCall::SomeHasState { .. } => false,
            _ => true,
        },
        _ => false,
    }
}

fn is_discard(command: Command<u64, u64>) -> bool {
    match command {
        Command::Discard { .. } => true,
        _ => false,
    }
}

fn ends_send(reply: &Reply<u64, u64>) -> bool {
    match reply {
        Reply::Delivered(_) | Reply::SendRefused(_) => true,
        _ => false,
    }
}
