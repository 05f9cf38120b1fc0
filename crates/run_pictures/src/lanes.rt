//! Where ports and messages are in a picture.
use crate::failure::Failure;
use crate::positions::Positions;
use crate::rows::Rows;
use crate::story::{Port, Stay, Story};
use std::alloc::Global;

/// The distance of two rows of a lane.
pub(crate) const ROW: usize = 15;

// The room for a port's name and its marks.
const HEAD: usize = 17;

/// The lane of a port.
#[derive(Clone, Copy)]
pub(crate) struct Lane {
    pub(crate) port: Port,
    pub(crate) top: usize,
    pub(crate) height: usize,
}

impl Lane {
    /// Where a row of it begins.
    pub(crate) fn row(self, row: usize) -> usize {
        self.top
            .saturating_add(HEAD)
            .saturating_add(row.saturating_mul(ROW))
    }
}

/// The lanes of all ports: publishers first, each side in the order in which they were made.
#[derive(Drop)]
pub(crate) struct Lanes {
    pub(crate) lanes: Vec<Lane>,
    positions: Positions,
    /// The row of each loan.
    pub(crate) loan_rows: Vec<usize>,
    /// The row of each visit.
    pub(crate) visit_rows: Vec<usize>,
    /// Where the last lane ends.
    pub(crate) bottom: usize,
}

impl Lanes {
    /// The lanes below a height, for a run of that many commands.
    pub(crate) fn new(alloc: Global, story: &Story, top: usize) -> Result<Lanes, Failure> {
        let mut found = Lanes {
            lanes: Vec::new(alloc),
            positions: Positions::new(alloc),
            loan_rows: Vec::new(alloc),
            visit_rows: Vec::new(alloc),
            bottom: top,
        };
        found.add_side(story, true)?;
        found.add_side(story, false)?;
        let counts = found.add_rows(alloc, story)?;
        found.set_heights(top, counts.as_slice());
        Ok(found)
    }

    /// The lane of the port with this id, if it has one.
    pub(crate) fn of(&self, id: usize) -> Option<Lane> {
        let position = self.positions.of(id)?;
        self.lanes.get(position).copied()
    }

    fn add_side(&mut self, story: &Story, is_publisher: bool) -> Result<(), Failure> {
        for port in story.ports.iter() {
            if port.is_publisher == is_publisher {
                self.positions.set(port.id, self.lanes.len())?;
                self.lanes.push(Lane {
                    port: *port,
                    top: 0,
                    height: 0,
                })?;
            }
        }
        Ok(())
    }

    // Gives each bar a row of its lane. Returns how many rows each lane has.
    fn add_rows(&mut self, alloc: Global, story: &Story) -> Result<Vec<usize>, Failure> {
        let end = story.commands.len();
        let mut rows = Vec::new(alloc);
        for _ in 0..self.lanes.len() {
            rows.push(Rows::new(alloc))?;
        }
        self.loan_rows = self.take_rows(alloc, &mut rows, story.loans.as_slice(), end)?;
        self.visit_rows = self.take_rows(alloc, &mut rows, story.visits.as_slice(), end)?;
        counts_of(alloc, rows.as_slice())
    }

    // The row of each of these bars, which is taken until the bar ends.
    fn take_rows(
        &self,
        alloc: Global,
        rows: &mut Vec<Rows>,
        stays: &[Stay],
        end: usize,
    ) -> Result<Vec<usize>, Failure> {
        let mut taken = Vec::new(alloc);
        for stay in stays {
            let row = self.take(rows, stay.port, stay.from, stay.to.unwrap_or(end))?;
            taken.push(row)?;
        }
        Ok(taken)
    }

    fn take(
        &self,
        rows: &mut Vec<Rows>,
        port: usize,
        from: usize,
        to: usize,
    ) -> Result<usize, Failure> {
        let Some(position) = self.positions.of(port) else {
            return Ok(0);
        };
        match rows.get_mut(position) {
            Some(lane) => lane.take(from, to),
            None => Ok(0),
        }
    }

    fn set_heights(&mut self, top: usize, counts: &[usize]) {
        let mut next = top;
        for position in 0..self.lanes.len() {
            let rows = counts.get(position).copied().unwrap_or(0).max(1);
            if let Some(lane) = self.lanes.get_mut(position) {
                lane.top = next;
                lane.height = HEAD
                    .saturating_add(rows.saturating_mul(ROW))
                    .saturating_add(3);
                next = next.saturating_add(lane.height).saturating_add(6);
            }
        }
        self.bottom = next;
    }
}

// How many rows each lane has.
fn counts_of(alloc: Global, lanes: &[Rows]) -> Result<Vec<usize>, Failure> {
    let mut counts = Vec::new(alloc);
    for lane in lanes {
        counts.push(lane.count())?;
    }
    Ok(counts)
}
