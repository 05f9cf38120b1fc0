//! The facts of a run for the script of a page, as JSON.
use crate::drawing::Drawing;
use crate::story::{Port, Stay, Story};

/// Adds the facts as one object.
pub(crate) fn push_data(page: &mut Drawing, story: &Story) {
    page.text("{\"commands\":[");
    push_texts(page, story.commands.as_slice());
    page.text("],\n\"replies\":[");
    push_texts(page, story.replies.as_slice());
    page.text("],\n\"ports\":[");
    for (index, port) in story.ports.iter().enumerate() {
        push_port(page, index, *port);
    }
    push_messages(page, story);
    page.text("]}");
}

// What became of messages: as loans and in mailboxes, their values, and how many there were at a time.
fn push_messages(page: &mut Drawing, story: &Story) {
    page.text("],\n\"loans\":[");
    for (index, loan) in story.loans.iter().enumerate() {
        push_stay(page, index, *loan, None);
    }
    page.text("],\n\"visits\":[");
    for (index, visit) in story.visits.iter().enumerate() {
        push_stay(page, index, *visit, Some(visit.port));
    }
    push_numbers(page, story)
}

fn push_numbers(page: &mut Drawing, story: &Story) {
    page.text("],\n\"values\":[");
    for (index, value) in story.values.iter().enumerate() {
        push_comma(page, index);
        let (first, count) = *value;
        page.text("[\"");
        page.value(first);
        page.counted("\",", count, "]");
    }
    page.text("],\n\"points\":[");
    for (index, point) in story.points.iter().enumerate() {
        push_comma(page, index);
        page.counted("[", point.slots, ",");
        page.counted("", point.waiting, "]");
    }
}

fn push_port(page: &mut Drawing, index: usize, port: Port) {
    push_comma(page, index);
    page.counted("[", port.id, ",");
    page.text(if port.is_publisher { "1," } else { "0," });
    page.counted("", port.from, ",");
    push_time(page, port.to);
    page.text("]");
}

// A message at a port, which is named where it isn't the publisher.
fn push_stay(page: &mut Drawing, index: usize, stay: Stay, port: Option<usize>) {
    push_comma(page, index);
    page.counted("[", stay.message, ",");
    page.counted("", stay.publisher, ",");
    if let Some(port) = port {
        page.counted("", port, ",");
    }
    page.counted("", stay.from, ",");
    push_time(page, stay.turn);
    page.text(",");
    push_time(page, stay.to);
    if port.is_some() {
        page.counted(",", stay.channel, "");
    }
    page.text("]");
}

fn push_comma(page: &mut Drawing, index: usize) {
    if index > 0 {
        page.text(",");
    }
}

fn push_time(page: &mut Drawing, time: Option<usize>) {
    match time {
        Some(at) => page.number(at),
        None => page.text("null"),
    }
}

fn push_texts(page: &mut Drawing, texts: &[String]) {
    for (index, text) in texts.iter().enumerate() {
        push_comma(page, index);
        page.text("\"");
        push_quoted(page, text.as_str());
        page.text("\"");
    }
}

// A text within quotes of a script in a page.
fn push_quoted(page: &mut Drawing, text: &str) {
    for sign in text.chars() {
        match sign {
            '"' => page.text("\\\""),
            '\\' => page.text("\\\\"),
            '<' => page.text("\\u003c"),
            other if other < ' ' => page.text(" "),
            other => page.sign(other),
        }
    }
}
