//! The rows of a file, one after the other.
use crate::comparison::compare;
use crate::failure::Failure;
use crate::row::Row;
use crate::tally::Tally;

/// Runs the rows that are in a text. Lines without a word say nothing, and those that begin with `#`.
pub(crate) fn run_rows(rt: &HostRuntime, text: &str, tally: &mut Tally) -> Result<(), Failure> {
    let mut open: Option<Row> = None;
    for (index, line) in text.lines().enumerate() {
        if line.is_empty() || line.starts_with('#') {
            continue;
        }
        if let Some(next) = Row::beginning(rt.alloc(), line) {
            run_row(rt, open.replace(next), tally)?;
        } else if !add_line(&mut open, line)? {
            return Err(Failure::NoLine(index.saturating_add(1)));
        }
    }
    run_row(rt, open, tally)
}

// Adds a line to the row that began last, if there is one, and returns whether it is a line of a row.
fn add_line(open: &mut Option<Row>, line: &str) -> Result<bool, Failure> {
    match open {
        Some(row) => Ok(row.add(line)?),
        None => Ok(false),
    }
}

// Runs a row and counts it. It has to be as it says, or to differ where it is a wrong one.
fn run_row(rt: &HostRuntime, row: Option<Row>, tally: &mut Tally) -> Result<(), Failure> {
    let Some(row) = row else {
        return Ok(());
    };
    let compared = compare(rt, &row)?;
    let is_refuted = row.is_wrong == compared.is_as_said();
    let says = match (row.is_wrong, is_refuted) {
        (false, false) => "",
        (false, true) => ", which differs",
        (true, false) => ", which differs, as it has to",
        (true, true) => ", which doesn't differ",
    };
    println!(rt;
        "  {} of {}: {}{says}",
        compared.right, compared.lines, row.name
    )?;
    tally.add(compared.lines, is_refuted);
    Ok(())
}
