//! Calls of messages, which are several commands.
ghost use Rattle.std.specs.Prelude.{[], ◌∷◌, ◌≡◌, ◌≢◌, ◌≤◌, ◌<◌, ◌-◌, length, take};
ghost use Rattle.iox2_commands.specs.declared.command.Command.TheVariants.{Send, SendToConnection};
ghost use Rattle.call_recorder.specs.Bytes.{all_done, cells, reads_from, writes};
ghost use Rattle.call_recorder.specs.Messages.{KeepsBytes, KeepsCopy, KeepsReceived, KeepsTaken};
ghost use Rattle.call_recorder.specs.Recorder.{Begins, Keeps, with_missed};

use super::Recorder;
use crate::names::Name;
use iox2_commands::{Command, Reply};
use iox2_machine::UniquePublisherId;

impl Recorder {
    /// Keeps the bytes of a loan, which the command at the position made and which is sent next, where there
    /// is room for the send too.
    pub fn keep_bytes(&mut self, loan: usize, bytes: &[u8])
        ensures { KeepsBytes loan bytes.now self.old self.new }
    {
        let start = self.len();
        let value = self.common_value(bytes);
        self.keep_writes(loan, value, bytes);
        if !self.has_room() {
            self.cut(start);
        }
    }

    /// Keeps that a copy of these bytes was sent by a publisher, with this reply: a loan, its bytes and the
    /// send, which has this name where it waits.
    pub fn keep_copy(
        &mut self,
        publisher: usize,
        bytes: &[u8],
        waits: Option<Name>,
        reply: Reply<u64, u64>,
    )
        ensures { KeepsCopy publisher bytes.now reply self.old self.new }
    {
        let start = self.len();
        let value = self.common_value(bytes);
        let loan = Command::LoanSlice {
            of: publisher,
            len: bytes.len(),
        };
        self.keep(loan, Reply::Loaned);
        self.keep_writes(start, value, bytes);
        self.keep_send(start, waits, reply);
        self.end_call(start);
    }

    /// Keeps that a loan was sent, with this reply. The send has this name where it waits.
    pub fn keep_send(&mut self, loan: usize, waits: Option<Name>, reply: Reply<u64, u64>)
        ensures { Keeps 0 self.old self.new (Send loan ∷ []) (reply ∷ []) }
    {
        self.put(waits, Command::Send { of: loan }, reply);
    }

    /// The same of a loan that was sent into a channel of the connection at a place.
    pub fn keep_send_to(
        &mut self,
        loan: usize,
        channel: usize,
        connection: usize,
        waits: Option<Name>,
        reply: Reply<u64, u64>,
    )
        ensures { Keeps 0 self.old self.new (SendToConnection loan channel connection ∷ []) (reply ∷ []) }
    {
        let command = Command::SendToConnection {
            of: loan,
            channel,
            connection,
        };
        self.put(waits, command, reply);
    }

    /// Keeps that a subscriber received a message of this publisher, which has this name, and a read of each
    /// of its bytes.
    pub fn keep_received(
        &mut self,
        name: Name,
        subscriber: usize,
        origin: UniquePublisherId,
        bytes: &[u8],
    )
        ensures { KeepsReceived subscriber origin bytes.now self.old self.new }
    {
        let start = self.len();
        let receive = Command::Receive { of: subscriber };
        self.keep_maker(name, receive, Reply::Sample(origin));
        self.keep_reads(start, bytes);
        self.end_call(start);
    }

    /// The same of a message that was released at once.
    pub fn keep_taken(&mut self, subscriber: usize, origin: UniquePublisherId, bytes: &[u8])
        ensures { KeepsTaken subscriber origin bytes.now self.old self.new }
    {
        let start = self.len();
        let receive = Command::Receive { of: subscriber };
        self.keep(receive, Reply::Sample(origin));
        self.keep_reads(start, bytes);
        self.keep(Command::Release { of: start }, Reply::Done);
        self.end_call(start);
    }

    // Keeps that each byte of the message was read that the command at the position received.
    fn keep_reads(&mut self, of: usize, bytes: &[u8])
        ensures { Begins self.old self.new (reads_from of 0 (take self.old.bytes bytes.now)) (cells (take self.old.bytes bytes.now)) }
    {
        let read = first_bytes(bytes, self.bytes);
        for (at, byte) in read.iter().enumerate() {
            let value = u64::from(*byte);
            self.keep(Command::Read { of, at }, Reply::Cell(Some(value)));
        }
    }

    // Keeps the bytes of a loan: one value for all, and then those that are another.
    fn keep_writes(&mut self, of: usize, value: u64, bytes: &[u8])
        ensures { Begins self.old self.new (writes of value (take self.old.bytes bytes.now)) (all_done (writes of value (take self.old.bytes bytes.now))) }
    {
        self.keep(Command::WriteAll { of, value }, Reply::Done);
        let first = first_bytes(bytes, self.bytes);
        for (at, byte) in first.iter().enumerate() {
            let own = u64::from(*byte);
            if own != value {
                let change = Command::SetPayload { of, at, value: own };
                self.keep(change, Reply::Done);
            }
        }
    }

    // A value that many of the bytes have: the last one, or 0 where that isn't kept.
    fn common_value(&self, bytes: &[u8]) -> u64
        ensures { self.now.bytes < length bytes.now → result ≡ 0 }
    {
        match bytes.last() {
            Some(last) if bytes.len() <= self.bytes => u64::from(*last),
            _ => 0,
        }
    }

    // The call that began at the position has ended: if a command of it was missed, the others are missed too.
    fn end_call(&mut self, start: usize)
        requires { start ≤ length self.old.commands }
        ensures whole { self.old.missed ≡ 0 → self.new ≡ self.old }
        ensures cut { self.old.missed ≢ 0 → (self.new.missed
            ≡ with_missed self.old.missed (length self.old.commands - start))
            × (self.new ≡ record (self.old) {
              commands = take start self.old.commands;
              replies = take start self.old.replies;
              missed = self.new.missed;
            }) }
    {
        if self.missed > 0 {
            self.cut(start);
        }
    }

    // All commands from the position on are missed.
    fn cut(&mut self, start: usize)
        requires { start ≤ length self.old.commands }
        ensures missed { self.new.missed ≡ with_missed self.old.missed (length self.old.commands - start) }
        ensures cut { self.new ≡ record (self.old) {
          commands = take start self.old.commands;
          replies = take start self.old.replies;
          missed = self.new.missed;
        } }
    {
        let count = self.commands.len() - start;
        self.commands.truncate(start);
        self.replies.truncate(start);
        self.missed = self.missed.saturating_add(count as u64);
    }
}

// The first bytes, at most that many.
fn first_bytes(bytes: &[u8], most: usize) -> &[u8]
    ensures { result.now ≡ take most bytes.now }
{
    &bytes[..most.min(bytes.len())]
}
