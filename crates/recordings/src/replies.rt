//! Replies as text.
use iox2_commands::Reply;
use std::alloc::AllocError;
use std::fmt::Write;

/// Adds the text of a reply. It has all that the reply says, so that two replies with one text are one.
pub fn push_reply(text: &mut String, reply: &Reply<u64, u64>) -> Result<(), AllocError> {
    match reply {
        Reply::PublisherRefused(error) => write!(text, "err {error}"),
        Reply::SubscriberRefused(error) => write!(text, "err {error}"),
        Reply::LoanRefused(error) => write!(text, "err {error}"),
        Reply::SendRefused(error) => write!(text, "err {error}"),
        Reply::UpdateRefused(failure) => write!(text, "err {failure}"),
        Reply::ReceiveRefused(error) => write!(text, "err {error}"),
        Reply::PublisherMade(id) => write!(text, "publisher {}", id.value()),
        Reply::SubscriberMade(id) => write!(text, "subscriber {}", id.value()),
        Reply::Delivered(count) => write!(text, "delivered {count}"),
        Reply::Sample(origin) => write!(text, "sample {}", origin.value()),
        Reply::Place(Some(place)) => write!(text, "place {place}"),
        Reply::Cell(Some(value)) => write!(text, "value {value}"),
        Reply::Header(header) => {
            let node = header.node_id.value();
            let publisher = header.publisher_id.value();
            let elements = header.number_of_elements;
            write!(text, "header {node} {publisher} {elements}")
        }
        Reply::UserHeader(value) => write!(text, "user {value}"),
        _ => text.push_str(word_of(reply)),
    }
}

// The text of a reply that has only its kind.
fn word_of(reply: &Reply<u64, u64>) -> &'static str {
    match reply {
        Reply::Done => "done",
        Reply::Skipped => "skipped",
        Reply::Loaned => "loaned",
        Reply::Unwritten => "unwritten",
        Reply::Blocked => "blocked",
        Reply::NoSample => "none",
        Reply::Has(true) => "true",
        Reply::Has(false) => "false",
        Reply::WereClosed(true) => "all were closed",
        Reply::WereClosed(false) => "not all were closed",
        Reply::Place(None) => "no place",
        Reply::Cell(None) => "empty",
        _ => "other",
    }
}
