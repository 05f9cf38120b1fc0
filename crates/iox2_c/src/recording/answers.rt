//! The replies of a run to the outcome of a call.

use crate::status::{BLOCKED, NO_SAMPLE, OK};
use iox2_commands::Reply;
use iox2_pubsub::slice::{Publisher, Subscriber};
use iox2_pubsub::{
    ConnectionFailure, LoanError, PublisherCreateError, ReceiveError, SendError,
    SubscriberCreateError,
};

/// The outcome of a call on bytes.
pub type BytesReply = Reply<u64, u64>;

/// Why a call failed, if it did.
#[inline(always)]
pub fn error_of<T, E: Copy>(came: &Result<T, E>) -> Option<E> {
    match came {
        Ok(_) => None,
        Err(error) => Some(*error),
    }
}

/// Of a call that has nothing to tell.
pub fn plain_reply(code: u32) -> BytesReply {
    match code {
        OK => Reply::Done,
        _ => Reply::Skipped,
    }
}

/// Of making a publisher.
pub fn publisher_reply(made: &Result<Publisher, PublisherCreateError>) -> BytesReply {
    match made {
        Ok(publisher) => Reply::PublisherMade(publisher.id()),
        Err(error) => Reply::PublisherRefused(*error),
    }
}

/// Of making a subscriber.
pub fn subscriber_reply(made: &Result<Subscriber, SubscriberCreateError>) -> BytesReply {
    match made {
        Ok(subscriber) => Reply::SubscriberMade(subscriber.id()),
        Err(error) => Reply::SubscriberRefused(*error),
    }
}

/// Of a loan.
pub fn loan_reply(code: u32, refused: Option<LoanError>) -> BytesReply {
    match (refused, code) {
        (Some(error), _) => Reply::LoanRefused(error),
        (None, OK) => Reply::Loaned,
        _ => Reply::Skipped,
    }
}

/// Of a send or a retry, whose message that many subscribers took.
pub fn send_reply(code: u32, receivers: usize, failed: Option<SendError>) -> BytesReply {
    match (failed, code) {
        (Some(error), _) => Reply::SendRefused(error),
        (None, OK) => Reply::Delivered(receivers),
        (None, BLOCKED) => Reply::Blocked,
        _ => Reply::Skipped,
    }
}

/// Of an update of connections.
pub fn update_reply(code: u32, failed: Option<ConnectionFailure>) -> BytesReply {
    match failed {
        Some(failure) => Reply::UpdateRefused(failure),
        None => plain_reply(code),
    }
}

/// Of the question whether a message waits.
pub fn question_reply(code: u32, waits: u32, failed: Option<ConnectionFailure>) -> BytesReply {
    match code {
        OK => Reply::Has(waits != 0),
        _ => update_reply(code, failed),
    }
}

/// Of a receive that got nothing.
pub fn receive_reply(code: u32, failed: Option<ReceiveError>) -> BytesReply {
    match (failed, code) {
        (Some(error), _) => Reply::ReceiveRefused(error),
        (None, NO_SAMPLE) => Reply::NoSample,
        _ => Reply::Skipped,
    }
}
