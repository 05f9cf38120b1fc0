use crate::replies::push_reply;
use iox2_commands::{Command, Reply};
use iox2_machine::ServiceConfig;
use std::alloc::{AllocError, Global};

/// What was called on a domain, in order, and what was replied.
#[derive(Debug, Drop, PartialEq, Eq)]
pub struct Recording {
    /// The settings of the domain.
    pub config: ServiceConfig,
    /// The calls, each as a command that names what it is on by the position of the command that made
    /// it.
    pub commands: Vec<Command<u64, u64>>,
    /// What was replied to each, as `push_reply` writes it.
    pub replies: Vec<String>,
    /// How many elements of each received message are read right behind its receive, from the first one
    /// on, or all where it has fewer. 0 where the recording promises no reads.
    pub reads: usize,
}

impl Recording {
    /// A recording without any call, which promises no reads.
    pub fn new(alloc: Global, config: ServiceConfig) -> Recording {
        Recording {
            config,
            commands: Vec::new(alloc),
            replies: Vec::new(alloc),
            reads: 0,
        }
    }

    /// The recording of these commands and their replies, which promises no reads. A command without a
    /// reply is left out, and so is what follows it.
    ///
    /// `AllocError` where there is no room for it.
    pub fn of(
        alloc: Global,
        config: ServiceConfig,
        commands: &[Command<u64, u64>],
        replies: &[Reply<u64, u64>],
    ) -> Result<Recording, AllocError> {
        let mut recording = Recording::new(alloc, config);
        for (command, reply) in commands.iter().zip(replies.iter()) {
            let mut text = String::new(alloc);
            push_reply(&mut text, reply)?;
            recording.commands.push(*command)?;
            recording.replies.push(text)?;
        }
        Ok(recording)
    }
}
