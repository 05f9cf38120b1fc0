//! What is in a row.
use std::alloc::{AllocError, Global};

/// A script, and the lines that have to be printed for it.
#[derive(Drop)]
pub(crate) struct Row<'a> {
    /// What it shows, in one sentence.
    pub(crate) name: &'a str,
    /// Whether one of its replies is wrong, so that a difference has to be found.
    pub(crate) is_wrong: bool,
    /// The lines of the script.
    pub(crate) script: String,
    /// The replies to its commands.
    pub(crate) replies: String,
    /// What the domain warns of at the end.
    pub(crate) warnings: String,
}

impl<'a> Row<'a> {
    /// The row that a line begins, if it begins one: `row NAME`, or `wrong NAME`.
    pub(crate) fn beginning(alloc: Global, line: &'a str) -> Option<Row<'a>> {
        let (word, name) = line.split_once(' ')?;
        let is_wrong = match word {
            "row" => false,
            "wrong" => true,
            _ => return None,
        };
        Some(Row {
            name,
            is_wrong,
            script: String::new(alloc),
            replies: String::new(alloc),
            warnings: String::new(alloc),
        })
    }

    /// Adds a line of the row, and returns whether it is one. The first is the script's first; after it
    /// come commands, each before its reply, and then warnings.
    pub(crate) fn add(&mut self, line: &str) -> Result<bool, AllocError> {
        if self.script.is_empty() {
            push_line(&mut self.script, line)?;
        } else if let Some((command, reply)) = line.split_once(" -> ") {
            return self.add_command(command, reply);
        } else if line.starts_with("warning ") {
            push_line(&mut self.warnings, line)?;
        } else {
            return Ok(false);
        }
        Ok(true)
    }

    // Adds a command with its reply, as often as it says: `70 times sub 1`. Returns whether it says a number.
    fn add_command(&mut self, command: &str, reply: &str) -> Result<bool, AllocError> {
        let (count, command) = command.split_once(" times ").unwrap_or(("1", command));
        let Ok(count) = count.parse::<u64>() else {
            return Ok(false);
        };
        for _ in 0..count {
            push_line(&mut self.script, command)?;
            push_line(&mut self.replies, reply)?;
        }
        Ok(true)
    }
}

fn push_line(text: &mut String, line: &str) -> Result<(), AllocError> {
    text.push_str(line)?;
    text.push('\n')?;
    Ok(())
}
