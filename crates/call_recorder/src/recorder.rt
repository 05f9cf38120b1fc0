ghost use Rattle.std.specs.Prelude.{[], ◌∷◌, ◌≡◌, ◌≢◌, ◌↔◌, IfOk, IsTrue, length};
ghost use Rattle.call_recorder.specs.Recorder.{HasCommandRoom, Keeps, with_missed};

mod messages;

use crate::names::{Entry, NOWHERE, Name, place_of};
use iox2_commands::{Command, Reply};
use iox2_machine::ServiceConfig;
use recordings::{Recording, save};
use std::alloc::{AllocError, Global};
use std::marker::Model;

/// The first calls of a domain as commands with their replies, in room that is reserved at first. Each call
/// is kept whole or not at all. Only `new` and `text` allocate.
///
/// A message of bytes is one of numbers here: each byte is a number.
#[derive(Drop)]
pub struct Recorder {
    commands: Vec<Command<u64, u64>>,
    replies: Vec<Reply<u64, u64>>,
    // How many commands weren't kept.
    missed: u64,
    // What the commands made that is live.
    table: Vec<Entry>,
    // How many bytes of a message are kept.
    bytes: usize,
}

impl Model for Recorder {
    ghost use Rattle.call_recorder.specs.Recorder.{Calls};

    ghost Value = { Calls };

    ghost use Rattle.call_recorder.specs.RecorderFields.{IsRecorder, calls_of};

    ghost view = { calls_of };

    ghost invariant = { IsRecorder };
}

impl Recorder {
    /// A recorder for that many commands, which keeps that many bytes of each message. The others are 0 in
    /// what it keeps.
    ///
    /// `AllocError` where there is no memory for the commands.
    pub fn new(alloc: Global, room: usize, bytes: usize) -> Result<Recorder, AllocError>
        ensures { IfOk result (λ it. it ≡ record { commands = []; replies = []; room = room; missed = 0; bytes = bytes }) }
    {
        let commands = Vec::with_capacity(alloc, room)?;
        let replies = Vec::with_capacity(alloc, room)?;
        let table = Vec::with_capacity(alloc, room)?;
        Ok(Recorder {
            commands,
            replies,
            missed: 0,
            table,
            bytes,
        })
    }

    /// Keeps a call of one command with its reply behind the others, if there is room and none was missed
    /// before. Else it is missed, which `missed` counts.
    pub fn keep(&mut self, command: Command<u64, u64>, reply: Reply<u64, u64>)
        ensures { Keeps 0 self.old self.new (command ∷ []) (reply ∷ []) }
    {
        self.put(None, command, reply);
    }

    /// Keeps a call of one command that made something, which later ones name.
    pub fn keep_maker(&mut self, name: Name, command: Command<u64, u64>, reply: Reply<u64, u64>)
        ensures { Keeps 0 self.old self.new (command ∷ []) (reply ∷ []) }
    {
        self.put(Some(name), command, reply);
    }

    // Keeps one command, which made what has the name if there is one.
    fn put(&mut self, name: Option<Name>, command: Command<u64, u64>, reply: Reply<u64, u64>)
        ensures { Keeps 0 self.old self.new (command ∷ []) (reply ∷ []) }
    {
        if !self.has_room() {
            self.miss();
            return;
        }
        if let Some(name) = name {
            let position = self.commands.len();
            self.table.push_reserved(Entry { name, position });
        }
        self.commands.push_reserved(command);
        self.replies.push_reserved(reply);
    }

    // One command more isn't kept, and none after it: what is kept would be no run without it.
    fn miss(&mut self)
        ensures missed { self.new.missed ≢ 0 }
        ensures counted { self.new.missed ≡ with_missed self.old.missed 1 }
        ensures stays { self.new ≡ record (self.old) { missed = self.new.missed } }
    {
        self.missed = self.missed.saturating_add(1);
    }

    /// The position of the command that made what has this name, or one that no command has.
    pub fn position_of(&self, name: Name) -> usize {
        match place_of(self.table.as_slice(), name) {
            Some(place) => self.table[place].position,
            None => NOWHERE,
        }
    }

    /// Forgets what has this name: it isn't live any more.
    pub fn forget(&mut self, name: Name)
        ensures { self.new ≡ self.old }
    {
        if let Some(place) = place_of(self.table.as_slice(), name) {
            self.table.swap_remove(place);
        }
    }

    // How many commands are kept, and so how many replies.
    fn len(&self) -> usize
        ensures commands { result ≡ length self.now.commands }
        ensures replies { result ≡ length self.now.replies }
    {
        self.commands.len()
    }

    // Whether the next command is kept.
    fn has_room(&self) -> bool
        ensures { IsTrue result ↔ HasCommandRoom self.now 1 }
    {
        self.missed == 0 && self.commands.len() < self.commands.capacity()
    }

    /// How many commands weren't kept.
    pub fn missed(&self) -> u64
        ensures { result ≡ self.now.missed }
    {
        self.missed
    }

    /// The text of the recording, of a domain with these settings. It promises a read of each byte that is
    /// kept of a received message.
    ///
    /// `AllocError` where there is no memory for it.
    pub fn text(&self, alloc: Global, config: ServiceConfig) -> Result<String, AllocError> {
        let (commands, replies) = (self.commands.as_slice(), self.replies.as_slice());
        let mut recording = Recording::of(alloc, config, commands, replies)?;
        recording.reads = self.bytes;
        save(alloc, &recording)
    }
}
