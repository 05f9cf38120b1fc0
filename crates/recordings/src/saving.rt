use crate::commands::{push_command, push_domain, push_service};
use crate::recording::Recording;
use crate::sum::Sum;
use std::alloc::{AllocError, Global};
use std::fmt::Write;

/// The first line of a recording, up to its version.
pub(crate) const TITLE: &str = "recording ";

/// The version of the text that `save` gives, and the only one that `load` reads.
pub(crate) const VERSION: u64 = 1;

/// What is before the number of elements that are read behind each receive.
pub(crate) const READS: &str = " reads ";

/// What is between a command and its reply.
pub(crate) const REPLIES: &str = " = ";

/// The text of a recording: its version, its settings, a line for each command with its reply, and a
/// last line with how many these are and a sum of all before it.
///
/// `AllocError` where there is no room for it.
pub fn save(alloc: Global, recording: &Recording) -> Result<String, AllocError> {
    let mut text = String::new(alloc);
    write!(text, "{TITLE}{VERSION}\n")?;
    push_service(&mut text, &recording.config)?;
    push_reads(&mut text, recording.reads)?;
    text.push('\n')?;
    push_domain(&mut text, &recording.config)?;
    text.push('\n')?;
    for (command, reply) in recording.commands.iter().zip(recording.replies.iter()) {
        push_command(&mut text, command)?;
        text.push_str(REPLIES)?;
        text.push_str(reply.as_str())?;
        text.push('\n')?;
    }
    let sum = Sum::new().with(text.as_bytes());
    push_end(&mut text, recording.commands.len(), sum)?;
    text.push('\n')?;
    Ok(text)
}

// The promise of reads, behind the settings of the service.
fn push_reads(text: &mut String, reads: usize) -> Result<(), AllocError> {
    match reads {
        0 => Ok(()),
        _ => write!(text, "{READS}{reads}"),
    }
}

/// The last line, without its end.
pub(crate) fn push_end(text: &mut String, count: usize, sum: Sum) -> Result<(), AllocError> {
    write!(text, "end {count} {:016x}", sum.value())
}
