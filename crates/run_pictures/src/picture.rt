//! The picture of a run, in which each message and each command can be read.
use crate::axis::{Scale, label_height, push_commands};
use crate::canvas::{Place, begin_label, color_of, end_label, label, line, push_head, rect};
use crate::curves;
use crate::drawing::Drawing;
use crate::failure::Failure;
use crate::folded::folded_picture;
use crate::lanes::{Lane, Lanes};
use crate::legend::{self, push_legend, push_part};
use crate::marks::{mark_text, push_lost, push_mark};
use crate::story::{End, Mark, Stay, Story};
use std::alloc::Global;

// Of more commands or ports a folded picture is drawn.
const MOST_COMMANDS: usize = 240;

const MOST_PORTS: usize = 24;

/// The picture of a run, as the text of an SVG. Where it is too large to be read, it is folded.
pub(crate) fn picture(alloc: Global, story: &Story) -> Result<String, Failure> {
    if is_folded(story) {
        return folded_picture(alloc, story);
    }
    let scale = Scale::new(story.commands.len());
    let top = legend::HEIGHT.saturating_add(16);
    let lanes = Lanes::new(alloc, story, top)?;
    let labels = lanes.bottom.saturating_add(label_height(story));
    let height = labels.saturating_add(curves::HEIGHT).saturating_add(24);
    let width = scale.right().saturating_add(30).max(880);
    let mut svg = Drawing::new(alloc);
    push_head(&mut svg, width, height);
    push_legend(&mut svg, story, 14);
    let ground = Ground {
        alloc,
        scale,
        lanes,
    };
    push_lanes(&mut svg, &ground);
    push_commands(&mut svg, story, scale, top, ground.lanes.bottom);
    push_messages(&mut svg, story, &ground);
    curves::push_curves(&mut svg, story, scale, labels);
    svg.text("</svg>\n");
    svg.finish()
}

// Where ports, messages and commands lie.
#[derive(Drop)]
struct Ground {
    alloc: Global,
    scale: Scale,
    lanes: Lanes,
}

// What is in the lanes.
fn push_messages(svg: &mut Drawing, story: &Story, ground: &Ground) {
    push_ways(svg, story, ground);
    push_loans(svg, story, ground);
    push_visits(svg, story, ground);
    push_marks(svg, story, ground)
}

/// Whether the picture of a run is folded.
pub(crate) fn is_folded(story: &Story) -> bool {
    story.commands.len() > MOST_COMMANDS || story.ports.len() > MOST_PORTS
}

fn push_lanes(svg: &mut Drawing, ground: &Ground) {
    let scale = ground.scale;
    for lane in ground.lanes.lanes.iter() {
        let width = scale.right().saturating_sub(scale.left);
        let all = Place {
            x: scale.left,
            y: lane.top,
            width,
            height: lane.height,
        };
        rect(svg, all, "lane", "#f4f4f4", "");
        let x = scale.x(lane.port.from);
        let life = Place {
            x,
            width: scale.end(lane.port.to).saturating_sub(x),
            ..all
        };
        rect(svg, life, "life", "#e6e6e6", "");
        push_name(svg, *lane);
    }
}

fn push_name(svg: &mut Drawing, lane: Lane) {
    let y = lane.top.saturating_add(13);
    let kind = if lane.port.is_publisher {
        "publisher"
    } else {
        "subscriber"
    };
    begin_label(svg, 6, y, "port");
    svg.text(kind);
    svg.counted(" ", lane.port.id, "");
    end_label(svg);
    if lane.port.is_publisher {
        let place = Place {
            x: 6,
            y: y.saturating_add(5),
            width: 40,
            height: 6,
        };
        rect(svg, place, "color", color_of(lane.port.id), "");
    }
}

// The lines from publishers to the mailboxes that their messages come to.
fn push_ways(svg: &mut Drawing, story: &Story, ground: &Ground) {
    let lanes = &ground.lanes;
    for (visit, row) in story.visits.iter().zip(lanes.visit_rows.iter()) {
        let (Some(from), Some(to)) = (lanes.of(visit.publisher), lanes.of(visit.port)) else {
            continue;
        };
        let x = ground.scale.x(visit.from);
        let (start, class) = match loan_row(story, lanes, visit) {
            Some(row) => (from.row(row).saturating_add(6), "way"),
            None => (from.top.saturating_add(from.height), "late"),
        };
        let end = to.row(*row).saturating_add(6);
        line(svg, (x, start), (x, end), class, color_of(visit.publisher));
    }
}

// The row of the visit's loan, where the message was sent by the command that brought it there.
fn loan_row(story: &Story, lanes: &Lanes, visit: &Stay) -> Option<usize> {
    for (loan, row) in story.loans.iter().zip(lanes.loan_rows.iter()) {
        if loan.message == visit.message && is_sent_at(loan, visit.from) {
            return Some(*row);
        }
    }
    None
}

// Whether the loan's message was sent, or waited to be, at a time.
fn is_sent_at(loan: &Stay, at: usize) -> bool {
    let last = loan.to.unwrap_or(at);
    let first = loan.turn.unwrap_or(last);
    first <= at && at <= last
}

fn push_loans(svg: &mut Drawing, story: &Story, ground: &Ground) {
    for (loan, row) in story.loans.iter().zip(ground.lanes.loan_rows.iter()) {
        let said = loan_text(ground.alloc, story, loan);
        push_stay(
            svg,
            story,
            ground,
            loan,
            *row,
            ["lent", "blocked"],
            said.as_str(),
        );
        svg.takes(&said);
    }
}

fn loan_text(alloc: Global, story: &Story, loan: &Stay) -> Drawing {
    let mut text = message_text(alloc, story, loan.message);
    text.command(": lent by command ", loan.from);
    say_rest(&mut text, loan, ", its send blocked by ");
    text
}

fn push_visits(svg: &mut Drawing, story: &Story, ground: &Ground) {
    for (visit, row) in story.visits.iter().zip(ground.lanes.visit_rows.iter()) {
        let said = visit_text(ground.alloc, story, visit);
        push_stay(
            svg,
            story,
            ground,
            visit,
            *row,
            ["waits", "held"],
            said.as_str(),
        );
        svg.takes(&said);
    }
}

fn visit_text(alloc: Global, story: &Story, visit: &Stay) -> Drawing {
    let mut text = message_text(alloc, story, visit.message);
    text.counted(" of publisher ", visit.publisher, "");
    text.counted(" at subscriber ", visit.port, "");
    if visit.channel > 0 {
        text.counted(", channel ", visit.channel, "");
    }
    text.command(": there since command ", visit.from);
    say_rest(&mut text, visit, ", received by ");
    text
}

// What became of the message after it came there.
fn say_rest(text: &mut Drawing, stay: &Stay, turned: &str) {
    if let Some(at) = stay.turn {
        text.command(turned, at);
    }
    if let Some(at) = stay.to {
        text.text(end_text(stay.end));
        text.command(" by ", at);
    }
}

fn end_text(end: End) -> &'static str {
    match end {
        End::There | End::Sent => ", sent",
        End::Discarded => ", given back",
        End::Refused => ", refused",
        End::Released => ", released",
        End::Overwritten => ", overwritten",
        End::Lost => ", lost",
    }
}

// The bar of a message in a row of its port's lane, with the classes of its two parts.
fn push_stay(
    svg: &mut Drawing,
    story: &Story,
    ground: &Ground,
    stay: &Stay,
    row: usize,
    classes: [&str; 2],
    said: &str,
) {
    let Some(lane) = ground.lanes.of(stay.port) else {
        return;
    };
    let (scale, y, color) = (ground.scale, lane.row(row), color_of(stay.publisher));
    let (x, end) = (scale.x(stay.from), scale.end(stay.to));
    let [first, second] = classes;
    match stay.turn {
        None => push_part(svg, bar(x, end, y), first, color, said),
        Some(at) => {
            let middle = scale.x(at);
            push_part(svg, bar(x, middle, y), first, color, said);
            push_part(svg, bar(middle, end, y), second, color, said);
        }
    }
    match stay.end {
        End::Overwritten => push_lost(svg, end, y.saturating_add(6), true),
        End::Lost => push_lost(svg, end, y.saturating_add(6), false),
        _ => {}
    }
    push_bar_label(svg, ground.alloc, story, stay.message, x, end, y);
}

// The bar between two times. It is never too narrow to be seen.
fn bar(x: usize, end: usize, y: usize) -> Place {
    let width = end.saturating_sub(x);
    if width < 6 {
        Place {
            x: x.saturating_sub(3),
            y,
            width: 6,
            height: 12,
        }
    } else {
        Place {
            x,
            y,
            width,
            height: 12,
        }
    }
}

/// The number of a message, and its value where it was sent.
pub(crate) fn message_text(alloc: Global, story: &Story, message: usize) -> Drawing {
    let mut text = Drawing::new(alloc);
    text.counted("#", message, "");
    let (value, count) = story.values.get(message).copied().unwrap_or((0, 0));
    if count > 0 {
        text.text(" = ");
        text.value(value);
    }
    if count > 1 {
        text.text(" ..");
    }
    text
}

// The message's number and value, or the number alone where there is little room.
fn push_bar_label(
    svg: &mut Drawing,
    alloc: Global,
    story: &Story,
    message: usize,
    x: usize,
    end: usize,
    y: usize,
) {
    let text = message_text(alloc, story, message);
    svg.takes(&text);
    let width = end.saturating_sub(x);
    let y = y.saturating_add(10);
    let x = x.saturating_add(3);
    if width >= text.len().saturating_mul(6).saturating_add(8) {
        return label(svg, x, y, "message", text.as_str());
    }
    if width >= 20 {
        begin_label(svg, x, y, "small");
        svg.counted("#", message, "");
        end_label(svg);
    }
}

fn push_marks(svg: &mut Drawing, story: &Story, ground: &Ground) {
    let (alloc, scale, lanes) = (ground.alloc, ground.scale, &ground.lanes);
    for mark in story.marks.iter() {
        let top = match lanes.of(mark.port) {
            Some(lane) => lane.top,
            None => legend::HEIGHT.saturating_sub(2),
        };
        let said = mark_said(alloc, story, *mark);
        let (x, y) = (scale.x(mark.at), top.saturating_add(9));
        push_mark(svg, x, y, mark.kind, said.as_str());
        svg.takes(&said);
    }
}

/// What a mark says: what it is, the command and its reply.
pub(crate) fn mark_said(alloc: Global, story: &Story, mark: Mark) -> Drawing {
    let mut text = Drawing::new(alloc);
    text.text(mark_text(mark.kind));
    text.command(": command ", mark.at);
    if let (Some(called), Some(reply)) = (story.commands.get(mark.at), story.replies.get(mark.at)) {
        text.text(" ");
        text.text(called.as_str());
        text.text(" = ");
        text.text(reply.as_str());
    }
    text
}
