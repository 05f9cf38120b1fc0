//! Reads that a recording promises.
use crate::failure::Failure;
use crate::record::recorded;
use iox2_runs::Command;
use recordings::Recording;
use std::alloc::{AllocError, Global};

// No command of a list is at this position.
const NOWHERE: usize = usize::MAX;

/// A read of a received message that the recording promises, and that isn't where it has to be.
#[derive(Drop)]
pub(crate) struct MissingRead {
    /// The position of the receive.
    pub(crate) receive: usize,
    /// The element that isn't read.
    pub(crate) at: usize,
    /// What a read of it replies.
    pub(crate) reply: String,
}

impl MissingRead {
    /// The read.
    pub(crate) fn command(&self) -> Command<u64, u64> {
        Command::Read {
            of: self.receive,
            at: self.at,
        }
    }

    /// The position where the read has to be, behind the receive and the reads of the elements before.
    pub(crate) fn position(&self) -> usize {
        self.receive.saturating_add(1).saturating_add(self.at)
    }
}

/// The first read that the recording promises and hasn't: of a message that was received, and of an
/// element that the message has. The commands are run for that once more, with a read behind those of
/// each message.
pub(crate) fn missing_read(
    alloc: Global,
    recording: &Recording,
) -> Result<Option<MissingRead>, Failure> {
    if recording.reads == 0 {
        return Ok(None);
    }
    let asked = with_questions(alloc, recording)?;
    let again = recorded(alloc, recording.config, asked.commands.as_slice())?;
    for question in asked.questions.iter() {
        if let Some(reply) = again.replies.get(question.position) {
            // A read behind the last element is skipped.
            if reply.as_str().starts_with("value ") {
                let mut value = String::new(alloc);
                value.push_str(reply.as_str())?;
                return Ok(Some(MissingRead {
                    receive: question.reads.receive,
                    at: question.reads.count,
                    reply: value,
                }));
            }
        }
    }
    Ok(None)
}

// The reads behind a receive: of as many elements, from the first one on.
#[derive(Clone, Copy)]
struct Reads {
    // The position of the receive in the recording.
    receive: usize,
    count: usize,
}

// A read of the element behind these.
#[derive(Clone, Copy)]
struct Question {
    reads: Reads,
    // Its position in the list with all questions.
    position: usize,
}

// The commands of a recording with the questions among them.
#[derive(Drop)]
struct Asked {
    commands: Vec<Command<u64, u64>>,
    questions: Vec<Question>,
    // Where each command of the recording is among these.
    positions: Vec<usize>,
}

fn with_questions(alloc: Global, recording: &Recording) -> Result<Asked, AllocError> {
    let mut asked = Asked {
        commands: Vec::new(alloc),
        questions: Vec::new(alloc),
        positions: Vec::new(alloc),
    };
    let mut last = None;
    for (command, reply) in recording.commands.iter().zip(recording.replies.iter()) {
        let next = match last {
            Some(reads) => with_read(reads, command),
            None => None,
        };
        if next.is_none() {
            asked.ask(last, recording.reads)?;
        }
        last = match next {
            Some(reads) => Some(reads),
            None => received(asked.positions.len(), command, reply.as_str()),
        };
        asked.push(*command)?;
    }
    asked.ask(last, recording.reads)?;
    Ok(asked)
}

// No reads yet, if the command at the position received a message.
fn received(position: usize, command: &Command<u64, u64>, reply: &str) -> Option<Reads> {
    match *command {
        Command::Receive { .. } if reply.starts_with("sample ") => Some(Reads {
            receive: position,
            count: 0,
        }),
        _ => None,
    }
}

// The reads with this one, if it is of the next element.
fn with_read(reads: Reads, command: &Command<u64, u64>) -> Option<Reads> {
    match *command {
        Command::Read { of, at } if of == reads.receive && at == reads.count => Some(Reads {
            count: reads.count.saturating_add(1),
            ..reads
        }),
        _ => None,
    }
}

impl Asked {
    // Reads the element behind these reads, if the recording promises that it is read.
    fn ask(&mut self, last: Option<Reads>, promised: usize) -> Result<(), AllocError> {
        let Some(reads) = last else {
            return Ok(());
        };
        if reads.count >= promised {
            return Ok(());
        }
        let position = self.commands.len();
        let read = Command::Read {
            of: self.place_of(reads.receive),
            at: reads.count,
        };
        self.questions.push(Question { reads, position })?;
        self.commands.push(read)?;
        Ok(())
    }

    // Adds a command of the recording.
    fn push(&mut self, command: Command<u64, u64>) -> Result<(), AllocError> {
        let mut moved = command;
        if let Some(of) = moved.of_mut() {
            *of = self.place_of(*of);
        }
        self.positions.push(self.commands.len())?;
        self.commands.push(moved)?;
        Ok(())
    }

    // Where an earlier command of the recording is.
    fn place_of(&self, position: usize) -> usize {
        match self.positions.get(position) {
            Some(place) => *place,
            None => NOWHERE,
        }
    }
}
