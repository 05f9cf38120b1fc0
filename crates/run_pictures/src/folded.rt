//! The picture of a long run: how much there was at each port, for some commands at a time.
use crate::axis::Scale;
use crate::canvas::{Place, begin_label, end_label, label, line, push_head, rect};
use crate::curves;
use crate::drawing::Drawing;
use crate::failure::Failure;
use crate::positions::Positions;
use crate::story::{End, MarkKind, Port, Stay, Story};
use std::alloc::Global;

// How many columns there are at most, how wide each is, and how high a lane.
const MOST_COLUMNS: usize = 300;

const COLUMN: usize = 4;

const LANE: usize = 22;

const BAR: usize = 11;

// A lane has two strips above its bars and one below: refused calls, blocked sends, and lost messages.
const STRIP: usize = 3;

// Where lanes begin.
const TOP: usize = 64;

// What there is in a column of a lane.
#[derive(Clone, Copy)]
struct Cell {
    messages: usize,
    refused: usize,
    lost: usize,
    blocked: usize,
}

// What one of them is.
#[derive(Clone, Copy)]
enum What {
    Message,
    Refused,
    Lost,
    Blocked,
}

impl Cell {
    fn add(&mut self, what: What) {
        match what {
            What::Message => self.messages = self.messages.saturating_add(1),
            What::Refused => self.refused = self.refused.saturating_add(1),
            What::Lost => self.lost = self.lost.saturating_add(1),
            What::Blocked => self.blocked = self.blocked.saturating_add(1),
        }
    }
}

const EMPTY: Cell = Cell {
    messages: 0,
    refused: 0,
    lost: 0,
    blocked: 0,
};

// The ports that share a lane, one after another, and what there is in each column.
#[derive(Drop)]
struct FoldedLane {
    is_publisher: bool,
    ports: Vec<Port>,
    cells: Vec<Cell>,
}

// All lanes, and how commands come into columns.
#[derive(Drop)]
struct Folded {
    alloc: Global,
    lanes: Vec<FoldedLane>,
    positions: Positions,
    scale: Scale,
    // How many commands a column has.
    group: usize,
}

/// The scale of the folded picture, by columns, and how many commands a column has.
pub(crate) fn folded_scale(story: &Story) -> (Scale, usize) {
    let count = story.commands.len();
    let group = count.div_ceil(MOST_COLUMNS).max(1);
    let scale = Scale {
        left: 120,
        step: COLUMN,
        count: count.div_ceil(group),
    };
    (scale, group)
}

/// The folded picture of a run, as the text of an SVG.
pub(crate) fn folded_picture(alloc: Global, story: &Story) -> Result<String, Failure> {
    let (scale, group) = folded_scale(story);
    let mut folded = Folded {
        alloc,
        lanes: Vec::new(alloc),
        positions: Positions::new(alloc),
        scale,
        group,
    };
    folded.add_side(story, true)?;
    folded.add_side(story, false)?;
    folded.add_messages(story);
    folded.add_marks(story);
    draw(story, &folded)
}

impl Folded {
    // A port goes into a lane whose last port was closed before, or into a lane of its own.
    fn add_side(&mut self, story: &Story, is_publisher: bool) -> Result<(), Failure> {
        for port in story.ports.iter() {
            if port.is_publisher == is_publisher {
                let lane = self.lane_for(*port)?;
                self.positions.set(port.id, lane)?;
            }
        }
        Ok(())
    }

    fn lane_for(&mut self, port: Port) -> Result<usize, Failure> {
        for position in 0..self.lanes.len() {
            if let Some(lane) = self.lanes.get_mut(position) {
                if lane.is_publisher == port.is_publisher
                    && is_free(lane.ports.as_slice(), port.from)
                {
                    lane.ports.push(port)?;
                    return Ok(position);
                }
            }
        }
        let mut lane = FoldedLane {
            is_publisher: port.is_publisher,
            ports: Vec::new(self.alloc),
            cells: Vec::new(self.alloc),
        };
        lane.ports.push(port)?;
        for _ in 0..self.scale.count {
            lane.cells.push(EMPTY)?;
        }
        self.lanes.push(lane)?;
        Ok(self.lanes.len().saturating_sub(1))
    }

    fn column(&self, at: usize) -> usize {
        at / self.group.max(1)
    }

    fn cell_mut(&mut self, port: usize, column: usize) -> Option<&mut Cell> {
        let position = self.positions.of(port)?;
        match self.lanes.get_mut(position) {
            Some(lane) => lane.cells.get_mut(column),
            None => None,
        }
    }

    // Something is there in each column from one time to another.
    fn add(&mut self, what: What, port: usize, from: usize, to: usize) {
        let end = self.column(to).saturating_add(1);
        for column in self.column(from)..end {
            if let Some(cell) = self.cell_mut(port, column) {
                cell.add(what);
            }
        }
    }

    fn add_messages(&mut self, story: &Story) {
        let end = story.commands.len();
        for loan in story.loans.iter() {
            let to = loan.to.unwrap_or(end);
            self.add(What::Message, loan.port, loan.from, to);
            if let Some(at) = loan.turn {
                self.add(What::Blocked, loan.port, at, to);
            }
        }
        for visit in story.visits.iter() {
            self.add_visit(*visit, visit.to.unwrap_or(end));
        }
    }

    fn add_visit(&mut self, visit: Stay, to: usize) {
        self.add(What::Message, visit.port, visit.from, to);
        if visit.end == End::Overwritten || visit.end == End::Lost {
            self.add(What::Lost, visit.port, to, to);
        }
    }

    fn add_marks(&mut self, story: &Story) {
        for mark in story.marks.iter() {
            match mark.kind {
                MarkKind::Refused => self.add(What::Refused, mark.port, mark.at, mark.at),
                MarkKind::Discarded | MarkKind::PassedOver => {
                    self.add(What::Lost, mark.port, mark.at, mark.at)
                }
                _ => {}
            }
        }
    }

    // The most that there is in a cell of a publisher, or of a subscriber.
    fn most(&self, is_publisher: bool) -> usize {
        let mut most = 1usize;
        for lane in self.lanes.iter() {
            if lane.is_publisher == is_publisher {
                for cell in lane.cells.iter() {
                    most = most.max(cell.messages);
                }
            }
        }
        most
    }
}

// Whether the last of these ports was closed before.
fn is_free(ports: &[Port], from: usize) -> bool {
    match ports.last() {
        Some(Port { to: Some(to), .. }) => *to < from,
        _ => false,
    }
}

fn draw(story: &Story, folded: &Folded) -> Result<String, Failure> {
    let scale = folded.scale;
    let lanes = folded.lanes.len().saturating_mul(LANE);
    let bottom = TOP.saturating_add(lanes);
    let curves_top = bottom.saturating_add(40);
    let height = curves_top.saturating_add(curves::HEIGHT).saturating_add(20);
    let width = scale.right().saturating_add(30).max(880);
    let mut svg = Drawing::new(folded.alloc);
    push_head(&mut svg, width, height);
    push_title(&mut svg, story, folded);
    push_keys(&mut svg, folded);
    for (position, lane) in folded.lanes.iter().enumerate() {
        let y = TOP.saturating_add(position.saturating_mul(LANE));
        push_lane(&mut svg, folded, lane, y);
    }
    push_times(&mut svg, story, folded, bottom);
    curves::push_curves(&mut svg, story, scale, curves_top);
    svg.text("</svg>\n");
    svg.finish()
}

fn push_title(svg: &mut Drawing, story: &Story, folded: &Folded) {
    let commands = story.commands.len();
    let ports = story.ports.len();
    let group = folded.group;
    svg.text("<text class=\"title\" x=\"6\" y=\"16\">");
    svg.counted("", commands, " commands, ");
    svg.counted("", group, " in each column; ");
    svg.counted("", ports, " ports");
    svg.text(", one after another in a lane</text>\n");
}

// What bars and strips mean. The bars of either side are as high as the most on that side.
fn push_keys(svg: &mut Drawing, folded: &Folded) {
    let mut bars = Drawing::new(folded.alloc);
    let (lent, there) = (folded.most(true), folded.most(false));
    bars.text("height of a bar: messages that are lent by a publisher");
    bars.counted(", at most ", lent, "");
    bars.text(", or that wait for a subscriber or are received");
    bars.counted(", at most ", there, "");
    push_key(svg, 10, 24, "#0072B2");
    label(svg, 26, 32, "note", bars.as_str());
    svg.takes(&bars);
    let y = 50;
    push_key(svg, 10, 42, "#D55E00");
    label(svg, 26, y, "note", "calls refused");
    push_key(svg, 126, 42, "#CC79A7");
    label(svg, 142, y, "note", "a send is blocked");
    push_key(svg, 266, 42, "#000000");
    label(
        svg,
        282,
        y,
        "note",
        "messages lost, overwritten or not delivered",
    )
}

fn push_key(svg: &mut Drawing, x: usize, y: usize, color: &str) {
    let place = Place {
        x,
        y,
        width: 10,
        height: 10,
    };
    rect(svg, place, "key", color, "")
}

fn push_lane(svg: &mut Drawing, folded: &Folded, lane: &FoldedLane, y: usize) {
    let kind = kind_of(lane.is_publisher);
    if let Some(port) = lane.ports.first() {
        let more = if lane.ports.len() > 1 { " .." } else { "" };
        let base = y.saturating_add(14);
        begin_label(svg, 6, base, "port");
        svg.text(kind);
        svg.counted(" ", port.id, more);
        end_label(svg);
    }
    push_lives(svg, folded, lane, y);
    let most = folded.most(lane.is_publisher);
    for (column, cell) in lane.cells.iter().enumerate() {
        if cell.messages > 0 || cell.refused > 0 || cell.lost > 0 || cell.blocked > 0 {
            let said = cell_text(folded.alloc, *cell, column, folded.group);
            push_cell(
                svg,
                *cell,
                column_x(folded.scale, column),
                y,
                most,
                said.as_str(),
            );
            svg.takes(&said);
        }
    }
}

fn kind_of(is_publisher: bool) -> &'static str {
    if is_publisher {
        "publisher"
    } else {
        "subscriber"
    }
}

// Where a column begins.
fn column_x(scale: Scale, column: usize) -> usize {
    scale.left.saturating_add(column.saturating_mul(COLUMN))
}

// When the lane's ports were open.
fn push_lives(svg: &mut Drawing, folded: &Folded, lane: &FoldedLane, y: usize) {
    let scale = folded.scale;
    for port in lane.ports.iter() {
        let x = column_x(scale, folded.column(port.from));
        let end = match port.to {
            Some(at) => column_x(scale, folded.column(at)),
            None => scale.right(),
        };
        let place = Place {
            x,
            y,
            width: end.saturating_sub(x).max(2),
            height: LANE.saturating_sub(2),
        };
        let said = life_text(folded.alloc, *port);
        rect(svg, place, "life", "#e6e6e6", said.as_str());
        svg.takes(&said);
    }
}

fn life_text(alloc: Global, port: Port) -> Drawing {
    let mut text = Drawing::new(alloc);
    text.text(kind_of(port.is_publisher));
    text.counted(" ", port.id, "");
    text.command(": made by command ", port.from);
    if let Some(at) = port.to {
        text.command(", closed by ", at);
    }
    text
}

fn cell_text(alloc: Global, cell: Cell, column: usize, group: usize) -> Drawing {
    let first = column.saturating_mul(group).saturating_add(1);
    let last = column.saturating_add(1).saturating_mul(group);
    let mut text = Drawing::new(alloc);
    text.counted("commands ", first, "");
    text.counted(" to ", last, "");
    text.counted(": ", cell.messages, " messages");
    let Cell {
        refused,
        lost,
        blocked,
        ..
    } = cell;
    if refused > 0 {
        text.counted(", ", refused, " calls refused");
    }
    if blocked > 0 {
        text.counted(", ", blocked, " sends blocked");
    }
    if lost > 0 {
        text.counted(", ", lost, " lost or not delivered");
    }
    text
}

fn push_cell(svg: &mut Drawing, cell: Cell, x: usize, y: usize, most: usize, said: &str) {
    let up = cell.messages.saturating_mul(BAR) / most.max(1);
    let up = if cell.messages > 0 { up.max(2) } else { 0 };
    let second = y.saturating_add(STRIP);
    let bars = second.saturating_add(STRIP);
    let place = Place {
        x,
        y: bars.saturating_add(BAR.saturating_sub(up)),
        width: COLUMN,
        height: up,
    };
    rect(svg, place, "held", "#0072B2", said);
    push_strip(svg, x, y, cell.refused, "#D55E00", said);
    push_strip(svg, x, second, cell.blocked, "#CC79A7", said);
    let below = bars.saturating_add(BAR);
    push_strip(svg, x, below, cell.lost, "#000000", said)
}

fn push_strip(svg: &mut Drawing, x: usize, y: usize, count: usize, color: &str, said: &str) {
    if count == 0 {
        return;
    }
    let place = Place {
        x,
        y,
        width: COLUMN,
        height: STRIP,
    };
    rect(svg, place, "tick", color, said)
}

// The numbers of some commands below the lanes: the first one, and round ones.
fn push_times(svg: &mut Drawing, story: &Story, folded: &Folded, y: usize) {
    let count = story.commands.len();
    let step = tick_step(count);
    for tick in 0..11usize {
        let number = tick.saturating_mul(step).max(1);
        if number <= count {
            let column = folded.column(number.saturating_sub(1));
            push_time(svg, column_x(folded.scale, column), number, y);
        }
    }
}

fn push_time(svg: &mut Drawing, left: usize, number: usize, y: usize) {
    let x = left.saturating_add(COLUMN / 2);
    let below = y.saturating_add(5);
    line(svg, (x, y), (x, below), "grid", "#000");
    let base = y.saturating_add(16);
    begin_label(svg, x, base, "number");
    svg.number(number);
    end_label(svg)
}

// 1, 2 or 5 with zeros behind, so that ten steps reach the number.
fn tick_step(count: usize) -> usize {
    let mut ten = 1usize;
    for _ in 0..20usize {
        for factor in [1usize, 2, 5] {
            let step = ten.saturating_mul(factor).max(1);
            if count / step <= 10 {
                return step;
            }
        }
        ten = ten.saturating_mul(10);
    }
    ten
}
