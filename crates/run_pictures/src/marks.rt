//! Marks, each with a shape of its own.
use crate::canvas::begin_path;
use crate::drawing::Drawing;
use crate::story::MarkKind;

/// Draws a mark with its middle there, which says something when it is pointed at.
pub(crate) fn push_mark(svg: &mut Drawing, x: usize, y: usize, kind: MarkKind, said: &str) {
    let (path, paint) = shape_of(kind);
    begin_path(svg, x, y, path);
    svg.text(" ");
    svg.text(paint);
    svg.text("><title>");
    svg.escaped(said);
    svg.text("</title></path>\n");
}

// The path around the middle, and how it is painted.
fn shape_of(kind: MarkKind) -> (&'static str, &'static str) {
    match kind {
        MarkKind::Refused => (
            "M-4 -4L4 4M4 -4L-4 4",
            "stroke=\"#D55E00\" stroke-width=\"2.2\" fill=\"none\"",
        ),
        MarkKind::Skipped => (
            "M-3 0a3 3 0 1 0 6 0a3 3 0 1 0 -6 0",
            "stroke=\"#777\" stroke-width=\"1.2\" fill=\"#fff\"",
        ),
        MarkKind::Blocked => (
            "M-4 -5h3v10h-3zM1 -5h3v10h-3z",
            "stroke=\"none\" fill=\"#D55E00\"",
        ),
        MarkKind::Discarded => (
            "M-5 -4h10l-5 9z",
            "stroke=\"#000\" stroke-width=\"1.2\" fill=\"#fff\"",
        ),
        MarkKind::PassedOver => (
            "M-5 -4h10l-5 9z",
            "stroke=\"#000\" stroke-width=\"1.2\" stroke-dasharray=\"2 1.5\" fill=\"#fff\"",
        ),
        MarkKind::Channel => (
            "M-5 -4v8M5 -4v8M-5 0h10",
            "stroke=\"#0072B2\" stroke-width=\"1.6\" fill=\"none\"",
        ),
        MarkKind::Closed => ("M-1.5 -7h3v14h-3z", "stroke=\"none\" fill=\"#000\""),
        MarkKind::Expired => (
            "M-4 -4h8v8h-8z",
            "stroke=\"#000\" stroke-width=\"1.4\" stroke-dasharray=\"2 1.5\" fill=\"#fff\"",
        ),
        MarkKind::OtherReply => ("M0 -6l6 6l-6 6l-6 -6z", "stroke=\"#000\" fill=\"#F0E442\""),
    }
}

/// Draws the end of a message that was overwritten or lost before it was received.
pub(crate) fn push_lost(svg: &mut Drawing, x: usize, y: usize, is_overwritten: bool) {
    let path = if is_overwritten {
        "M-5 -5L5 0L-5 5z"
    } else {
        "M-5 5L0 -5L5 5z"
    };
    begin_path(svg, x, y, path);
    svg.text(" fill=\"#000\"/>\n");
}

/// What a mark says.
pub(crate) fn mark_text(kind: MarkKind) -> &'static str {
    match kind {
        MarkKind::Refused => "call refused",
        MarkKind::Skipped => "call skipped: it names nothing fitting",
        MarkKind::Blocked => "send waits for a full subscriber",
        MarkKind::Discarded => "not delivered to this full subscriber",
        MarkKind::PassedOver => "not delivered into this subscriber's closed channel",
        MarkKind::Channel => "channel closed, opened or hinted",
        MarkKind::Closed => "port closed",
        MarkKind::Expired => "keeps the connection of a closed publisher",
        MarkKind::OtherReply => "the recording has another reply",
    }
}
