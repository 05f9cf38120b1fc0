//! What a row says beside what is printed for its script.
use crate::failure::Failure;
use crate::no_channels::replies_without_channels;
use crate::row::Row;
use script_runner::{Ending, script};
use std::io;

/// How a row compares with what is printed.
#[derive(Drop)]
pub(crate) struct Comparison {
    /// How many replies and warnings the row has.
    pub(crate) lines: u64,
    /// How many of these are printed where they have to be.
    pub(crate) right: u64,
    /// How many lines are printed beside them.
    further: u64,
    /// Whether the script ran to its end.
    is_run: bool,
}

impl Comparison {
    /// Whether all that is printed is what the row says.
    pub(crate) fn is_as_said(&self) -> bool {
        self.is_run && self.right == self.lines && self.further == 0
    }

    // Compares the lines that are said, each of a command, with those that are printed.
    fn add(
        &mut self,
        rt: &impl Print,
        commands: &str,
        said: &str,
        printed: &str,
    ) -> io::Result<()> {
        let mut commands = commands.lines().skip(1);
        let mut printed = printed.lines();
        for (index, said) in said.lines().enumerate() {
            let of = commands.next().unwrap_or("a warning");
            let got = printed.next().unwrap_or("nothing");
            self.lines = self.lines.saturating_add(1);
            if got == said {
                self.right = self.right.saturating_add(1);
            } else {
                let number = index.saturating_add(1);
                println!(rt; "    line {number}, {of}: expected \"{said}\", got \"{got}\"")?;
            }
        }
        for further in printed {
            self.further = self.further.saturating_add(1);
            println!(rt; "    got a further line \"{further}\"")?;
        }
        Ok(())
    }
}

/// Runs the script of a row, and prints each difference. The replies have to be the same where the service
/// asks for no channels.
pub(crate) fn compare(rt: &HostRuntime, row: &Row) -> Result<Comparison, Failure> {
    let mut input = row.script.as_bytes();
    let mut replies = Vec::new(rt.alloc());
    let mut warnings = Vec::new(rt.alloc());
    let ending = script(rt.alloc(), &mut input, &mut replies, &mut warnings);
    let mut comparison = Comparison {
        lines: 0,
        right: 0,
        further: 0,
        is_run: ending == Ending::Printed,
    };
    comparison.add(rt, &row.script, &row.replies, text_of(&replies))?;
    comparison.add(rt, "", &row.warnings, text_of(&warnings))?;
    let without_channels = replies_without_channels(rt.alloc(), &row.script);
    if comparison.is_run && without_channels.as_deref() != Some(text_of(&replies)) {
        comparison.further = comparison.further.saturating_add(1);
        println!(rt; "    got other replies with 0 channels")?;
    }
    Ok(comparison)
}

// Replies and warnings are text.
fn text_of(printed: &[u8]) -> &str {
    str::from_utf8(printed).unwrap_or("no text")
}
