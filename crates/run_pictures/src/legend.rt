//! What the shapes and colors of a picture mean.
use crate::canvas::{Place, label, line, rect};
use crate::drawing::Drawing;
use crate::marks::{push_lost, push_mark};
use crate::story::{MarkKind, Story};

/// How high the legend is.
pub(crate) const HEIGHT: usize = 74;

const COLOR: &str = "#0072B2";

/// Draws the legend of bars and marks below a height; of channels where the run has something to do with them.
pub(crate) fn push_legend(svg: &mut Drawing, story: &Story, y: usize) {
    let below = y.saturating_add(54);
    if has_mark(story, MarkKind::Channel) {
        push_sign(
            svg,
            16,
            below,
            MarkKind::Channel,
            "channel closed, opened or hinted",
        );
    }
    if has_mark(story, MarkKind::PassedOver) {
        push_sign(
            svg,
            242,
            below,
            MarkKind::PassedOver,
            "not delivered: channel closed",
        );
    }
    push_bar(svg, 8, y, "lent", "lent");
    push_bar(svg, 84, y, "blocked", "send blocked");
    push_bar(svg, 206, y, "waits", "waits for the subscriber");
    push_bar(svg, 386, y, "held", "received, not released yet");
    push_way(svg, 572, y, "way", "sent to");
    push_way(svg, 656, y, "late", "handed out of the history");
    let y = y.saturating_add(18);
    push_sign(svg, 16, y, MarkKind::Refused, "call refused");
    push_sign(svg, 112, y, MarkKind::Skipped, "call skipped");
    push_sign(svg, 212, y, MarkKind::Blocked, "send blocked, or again");
    push_sign(svg, 364, y, MarkKind::Discarded, "not delivered: full");
    push_sign(svg, 500, y, MarkKind::Closed, "closed");
    push_sign(
        svg,
        566,
        y,
        MarkKind::Expired,
        "connection of a closed publisher stays",
    );
    let y = y.saturating_add(18);
    push_end(svg, 16, y, true, "overwritten by a newer message");
    push_end(svg, 222, y, false, "lost: its mailbox went");
    label(
        svg,
        372,
        y.saturating_add(4),
        "note",
        "Each publisher's messages have one color; #3 = 7 is message 3 with the value 7.",
    )
}

fn has_mark(story: &Story, kind: MarkKind) -> bool {
    story.marks.iter().any(|mark| mark.kind == kind)
}

fn push_bar(svg: &mut Drawing, x: usize, y: usize, class: &str, text: &str) {
    let place = Place {
        x,
        y: y.saturating_sub(6),
        width: 24,
        height: 12,
    };
    push_part(svg, place, class, COLOR, "");
    label(svg, x.saturating_add(29), y.saturating_add(4), "note", text)
}

/// Draws a part of a bar. Where a message waits it is light, with lines around it.
pub(crate) fn push_part(svg: &mut Drawing, place: Place, class: &str, color: &str, said: &str) {
    rect(svg, place, class, color, said);
    if class != "waits" {
        return;
    }
    let right = place.x.saturating_add(place.width);
    let bottom = place.y.saturating_add(place.height);
    line(svg, (place.x, place.y), (right, place.y), "edge", color);
    line(svg, (place.x, bottom), (right, bottom), "edge", color)
}

fn push_way(svg: &mut Drawing, x: usize, y: usize, class: &str, text: &str) {
    line(svg, (x, y), (x.saturating_add(22), y), class, COLOR);
    label(svg, x.saturating_add(27), y.saturating_add(4), "note", text)
}

fn push_sign(svg: &mut Drawing, x: usize, y: usize, kind: MarkKind, text: &str) {
    push_mark(svg, x, y, kind, text);
    label(svg, x.saturating_add(10), y.saturating_add(4), "note", text)
}

fn push_end(svg: &mut Drawing, x: usize, y: usize, is_overwritten: bool, text: &str) {
    push_lost(svg, x, y, is_overwritten);
    label(svg, x.saturating_add(10), y.saturating_add(4), "note", text)
}
