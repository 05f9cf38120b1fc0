//! Calls of messages are recorded.

use super::answers::{loan_reply, receive_reply, send_reply};
use super::{Recording, target};
use crate::numbers::{LoanNumbers, PublisherNumbers, SubscriberNumbers};
use crate::status::{BLOCKED, NO_SUCH_CHANNEL, NOT_LIVE, OK, PUBLISHER_IS_BLOCKED};
use call_recorder::Name;
use iox2_commands::Command;
use iox2_pubsub::slice::Sample;
use iox2_pubsub::{Key, LoanError, ReceiveError, SendError};
use std::time::Duration;

impl Recording {
    /// A loan of that many bytes was asked for. It was granted, or not, as the code and the error say.
    #[inline(always)]
    pub fn loan(
        &mut self,
        publisher: &PublisherNumbers,
        len: usize,
        loan: &LoanNumbers,
        code: u32,
        refused: Option<LoanError>,
    ) {
        let Some(recorder) = &mut self.recorder else {
            return;
        };
        let of = target(recorder, publisher.name(), code);
        let command = Command::LoanSlice { of, len };
        let reply = loan_reply(code, refused);
        match code {
            OK => recorder.keep_maker(loan_name(loan), command, reply),
            _ => recorder.keep(command, reply),
        }
    }

    /// A loan with these bytes is sent next, and no send of its publisher waits.
    pub fn written(&mut self, loan: &LoanNumbers, bytes: &[u8]) {
        if let Some(recorder) = &mut self.recorder {
            let of = recorder.position_of(loan_name(loan));
            recorder.keep_bytes(of, bytes);
        }
    }

    /// A loan was sent, and that many subscribers took it, or it wasn't, as the code and the error say.
    pub fn sent(
        &mut self,
        loan: &LoanNumbers,
        code: u32,
        receivers: usize,
        failed: Option<SendError>,
    ) {
        let Some(recorder) = &mut self.recorder else {
            return;
        };
        let of = target(recorder, loan_name(loan), code);
        if !is_left_out(code) {
            recorder.forget(loan_name(loan));
        }
        let reply = send_reply(code, receivers, failed);
        recorder.keep_send(of, waiting_name(loan, code), reply);
    }

    /// The same of a loan that was sent into a channel of one connection.
    #[inline(always)]
    pub fn sent_to(
        &mut self,
        loan: &LoanNumbers,
        channel: usize,
        connection: usize,
        code: u32,
        receivers: usize,
        failed: Option<SendError>,
    ) {
        if self.is_on() {
            self.keep_sent_to(loan, channel, connection, code, receivers, failed);
        }
    }

    #[cold]
    #[inline(never)]
    fn keep_sent_to(
        &mut self,
        loan: &LoanNumbers,
        channel: usize,
        connection: usize,
        code: u32,
        receivers: usize,
        failed: Option<SendError>,
    ) {
        let Some(recorder) = &mut self.recorder else {
            return;
        };
        let of = target(recorder, loan_name(loan), code);
        if !is_left_out(code) {
            recorder.forget(loan_name(loan));
        }
        let reply = send_reply(code, receivers, failed);
        recorder.keep_send_to(of, channel, connection, waiting_name(loan, code), reply);
    }

    /// A copy of these bytes was sent, by a send with these numbers where it waits.
    pub fn sent_copy(
        &mut self,
        publisher: &PublisherNumbers,
        bytes: &[u8],
        blocked: &LoanNumbers,
        code: u32,
        receivers: usize,
        failed: Option<SendError>,
    ) {
        let refused = refused_loan(failed);
        let Some(recorder) = &mut self.recorder else {
            return;
        };
        let of = target(recorder, publisher.name(), code);
        if code == NOT_LIVE || code == PUBLISHER_IS_BLOCKED || refused.is_some() {
            let len = bytes.len();
            recorder.keep(Command::LoanSlice { of, len }, loan_reply(code, refused));
            return;
        }
        let reply = send_reply(code, receivers, failed);
        recorder.keep_copy(of, bytes, waiting_name(blocked, code), reply);
    }

    /// A loan was given back unsent.
    pub fn discarded(&mut self, loan: &LoanNumbers, code: u32) {
        self.keep_last(loan_name(loan), code, |of| Command::Discard { of });
    }

    /// A send that waits was tried again, that many nanoseconds after it was blocked.
    pub fn retried(
        &mut self,
        blocked: &LoanNumbers,
        elapsed: u64,
        code: u32,
        receivers: usize,
        failed: Option<SendError>,
    ) {
        let elapsed = Duration::from_nanos(elapsed);
        self.keep(
            blocked_name(blocked),
            code,
            move |of| Command::Retry { of, elapsed },
            send_reply(code, receivers, failed),
        );
        self.forget_ended(blocked, code);
    }

    /// The subscriber for which a send waits was given up.
    pub fn given_up(
        &mut self,
        blocked: &LoanNumbers,
        code: u32,
        receivers: usize,
        failed: Option<SendError>,
    ) {
        let reply = send_reply(code, receivers, failed);
        let name = blocked_name(blocked);
        self.keep(name, code, |of| Command::GiveUp { of }, reply);
        self.forget_ended(blocked, code);
    }

    // A send that has ended has no name any more.
    fn forget_ended(&mut self, blocked: &LoanNumbers, code: u32) {
        if code != NOT_LIVE && code != BLOCKED {
            self.forget(blocked_name(blocked));
        }
    }

    /// A message with these bytes was received.
    pub fn received(&mut self, sample: &Sample, bytes: &[u8]) {
        if let Some(recorder) = &mut self.recorder {
            let of = recorder.position_of(receiver_name(sample));
            recorder.keep_received(key_name(sample.key()), of, sample.origin(), bytes);
        }
    }

    /// A message with these bytes was received, and given back at once.
    pub fn taken(&mut self, sample: &Sample, bytes: &[u8]) {
        if let Some(recorder) = &mut self.recorder {
            let of = recorder.position_of(receiver_name(sample));
            recorder.keep_taken(of, sample.origin(), bytes);
        }
    }

    /// A subscriber received nothing, for the reason that the code and the error say.
    pub fn received_nothing(
        &mut self,
        subscriber: &SubscriberNumbers,
        code: u32,
        failed: Option<ReceiveError>,
    ) {
        let reply = receive_reply(code, failed);
        self.keep(subscriber.name(), code, |of| Command::Receive { of }, reply);
    }

    /// The message with this key was given back, or not, as the code says.
    pub fn released(&mut self, key: Key, code: u32) {
        self.keep_last(key_name(key), code, |of| Command::Release { of });
    }
}

// Whether a loan is out still after a send that came to this code.
fn is_left_out(code: u32) -> bool {
    match code {
        NOT_LIVE | PUBLISHER_IS_BLOCKED | NO_SUCH_CHANNEL => true,
        _ => false,
    }
}

// Why a send lent nothing, if that is what failed.
fn refused_loan(failed: Option<SendError>) -> Option<LoanError> {
    match failed {
        Some(SendError::LoanError(error)) => Some(error),
        _ => None,
    }
}

fn loan_name(loan: &LoanNumbers) -> Name {
    Name::Loan(loan.number.get())
}

fn blocked_name(blocked: &LoanNumbers) -> Name {
    Name::Blocked(blocked.number.get())
}

// The name of a send with these numbers that came to this code, where it waits.
fn waiting_name(blocked: &LoanNumbers, code: u32) -> Option<Name> {
    match code {
        BLOCKED => Some(blocked_name(blocked)),
        _ => None,
    }
}

fn receiver_name(sample: &Sample) -> Name {
    Name::Subscriber(sample.key().port)
}

fn key_name(key: Key) -> Name {
    Name::Sample {
        subscriber: key.port,
        number: key.message,
    }
}
