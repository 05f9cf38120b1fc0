//! What is recorded of a domain, if anything is. No clause of a call speaks of it.

mod answers;
mod channels;
mod messages;
mod ports;

use crate::status::{NOT_LIVE, OK};
pub use answers::{error_of, publisher_reply, subscriber_reply};
use answers::{BytesReply, plain_reply};
use call_recorder::{NOWHERE, Name, Recorder};
use iox2_commands::Command;
use iox2_pubsub::ServiceConfig;
use std::alloc::{AllocError, Global};

/// What a recording has room for.
#[derive(Clone, Copy)]
pub struct Room {
    /// How many commands.
    pub commands: usize,
    /// How many bytes of each message.
    pub bytes: usize,
}

impl Room {
    // Whether calls that only ask about a channel are kept: not where no bytes are. Processes that share a
    // domain record none, since these lie elsewhere in each. So all have the same recording, though each asks
    // for itself.
    fn keeps_questions(self) -> bool {
        self.bytes != 0
    }
}

/// The recorder of a domain, if it has one.
#[derive(Drop)]
pub struct Recording {
    recorder: Option<Recorder>,
    // Whether calls that only ask about a channel are kept.
    has_questions: bool,
}

impl Recording {
    /// A recording with this room, or one of nothing. `None` where memory is refused.
    pub fn new(alloc: Global, room: Option<Room>) -> Option<Recording> {
        let (recorder, has_questions) = match room {
            Some(room) => {
                let recorder = Recorder::new(alloc, room.commands, room.bytes).ok()?;
                (Some(recorder), room.keeps_questions())
            }
            None => (None, false),
        };
        Some(Recording {
            recorder,
            has_questions,
        })
    }

    /// Whether anything is recorded.
    #[inline(always)]
    pub fn is_on(&self) -> bool {
        self.recorder.is_some()
    }

    /// How many commands weren't kept.
    pub fn missed(&self) -> u64 {
        match &self.recorder {
            Some(recorder) => recorder.missed(),
            None => 0,
        }
    }

    // Keeps the command of a call on what has this name, which came to this code and has this reply.
    fn keep<C: FnOnce(usize) -> Command<u64, u64>>(
        &mut self,
        name: Name,
        code: u32,
        command: C,
        reply: BytesReply,
    )
        requires { C.IsAlwaysCallable command }
    {
        if let Some(recorder) = &mut self.recorder {
            let of = target(recorder, name, code);
            recorder.keep(command(of), reply);
        }
    }

    // The same of a call that has nothing to tell, after which nothing has the name.
    fn keep_last<C: FnOnce(usize) -> Command<u64, u64>>(
        &mut self,
        name: Name,
        code: u32,
        command: C,
    )
        requires { C.IsAlwaysCallable command }
    {
        self.keep(name, code, command, plain_reply(code));
        if code == OK {
            self.forget(name);
        }
    }

    // Nothing has this name any more.
    fn forget(&mut self, name: Name) {
        if let Some(recorder) = &mut self.recorder {
            recorder.forget(name);
        }
    }

    /// The text of the recording, of a domain with these settings: nothing where nothing is recorded.
    ///
    /// `AllocError` where there is no memory for it.
    pub fn text(&self, alloc: Global, config: &ServiceConfig) -> Result<String, AllocError> {
        match &self.recorder {
            Some(recorder) => recorder.text(alloc, *config),
            None => Ok(String::new(alloc)),
        }
    }
}

// What a command names that came to this code: numbers that name nothing live may be another domain's.
fn target(recorder: &Recorder, name: Name, code: u32) -> usize {
    match code {
        NOT_LIVE => NOWHERE,
        _ => recorder.position_of(name),
    }
}
