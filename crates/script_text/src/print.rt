//! The lines that a script prints.
ghost use Rattle.std.specs.Prelude.{◌≡◌, ◌++◌, IfOk, OnOk, string_bytes};
ghost use Rattle.script_text.specs.Replies.{reply_line, reply_lines, reply_text};

use iox2_commands::Reply;
use std::alloc::{AllocError, Global};
use std::fmt::Write;

/// A line for each reply. Fails with `AllocError` where there is no room for them.
pub fn reply_lines(alloc: Global, replies: &[Reply<u64, u64>]) -> Result<String, AllocError>
    ensures { IfOk result (λ text. string_bytes text ≡ reply_lines replies.now) }
{
    let mut text = String::new(alloc);
    for reply in replies {
        push_line(&mut text, reply)?;
    }
    Ok(text)
}

fn push_line(text: &mut String, reply: &Reply<u64, u64>) -> Result<(), AllocError>
    ensures { OnOk result (string_bytes text.new ≡ string_bytes text.old ++ reply_line reply.now) }
{
    push_reply(text, reply)?;
    text.push('\n')
}

fn push_reply(text: &mut String, reply: &Reply<u64, u64>) -> Result<(), AllocError>
    ensures { OnOk result (string_bytes text.new ≡ string_bytes text.old ++ reply_text reply.now) }
{
    match reply {
        Reply::PublisherRefused(error) => write!(text, "err {error}"),
        Reply::SubscriberRefused(error) => write!(text, "err {error}"),
        Reply::LoanRefused(error) => write!(text, "err {error}"),
        Reply::SendRefused(error) => write!(text, "err {error}"),
        Reply::UpdateRefused(failure) => write!(text, "err {failure}"),
        Reply::ReceiveRefused(error) => write!(text, "err {error}"),
        Reply::Delivered(count) => write!(text, "ok {count}"),
        Reply::Place(Some(place)) => write!(text, "ok {place}"),
        Reply::Cell(Some(value)) => write!(text, "ok {value}"),
        Reply::UserHeader(value) => write!(text, "ok {value}"),
        Reply::Header(header) => {
            let node = header.node_id.value();
            let publisher = header.publisher_id.value();
            let elements = header.number_of_elements;
            write!(text, "ok {node} {publisher} {elements}")
        }
        Reply::Unwritten => text.push_str("unwritten"),
        Reply::Skipped => text.push_str("skipped"),
        Reply::Blocked => text.push_str("blocked"),
        Reply::Sample(_) => text.push_str("sample"),
        Reply::NoSample | Reply::Cell(None) | Reply::Place(None) => text.push_str("none"),
        Reply::Has(true) | Reply::WereClosed(true) => text.push_str("true"),
        Reply::Has(false) | Reply::WereClosed(false) => text.push_str("false"),
        Reply::Done | Reply::PublisherMade(_) | Reply::SubscriberMade(_) | Reply::Loaned => {
            text.push_str("ok")
        }
    }
}
