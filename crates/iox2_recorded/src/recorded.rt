ghost use Rattle.std.specs.Prelude.{◌≡◌, Err, IfErr, IfOk, IsOk, false, true, vec_len};
ghost use Rattle.iox2_runs.specs.Carries.{defaults_of};
ghost use Rattle.iox2_recorded.specs.declared.create_error.RecordedCreateError.TheVariants.{NoCells, OutOfMemory};
ghost use Rattle.iox2_runs.specs.Services.{lacks_cells};
ghost use Rattle.iox2_recorded.specs.Recorded.{HasNames, HasCallRoom, IsCarriedOut, IsRecorded, KeepsCall, SameRecording, WasRun, has_room_for_call};

use crate::create_error::RecordedCreateError;
use iox2_machine::{BackpressureFn, DegradationFn};
use iox2_pubsub::{Domain, ServiceConfig};
use iox2_runs::{Command, Made, Reply, carry_out, disown_all, lacks_cells};
use std::alloc::{AllocError, Global};

// There is a default value of the type. For proofs alone.
fn has_default<T: Default + Drop>()
    ensures { (value : T) × T.is_default value }
{
    T::default();
}

/// A domain that keeps what is called on it, as commands with their replies, in room that is reserved
/// when it is made, as is that for the names of what these calls make.
///
/// A command names what it is on by the position, counted from 0, of the call that made it.
pub struct Recorded<T, U, F, G> {
    config: ServiceConfig,
    domain: Domain<T, U, F, G>,
    // What each call made.
    table: Vec<Made>,
    commands: Vec<Command<T, U>>,
    replies: Vec<Reply<T, U>>,
    // How many calls weren't kept.
    missed: u64,
}

impl<
    T: Copy + Default + Drop,
    U: Copy + Default + Drop,
    F: BackpressureFn,
    G: DegradationFn,
> Recorded<T, U, F, G> {
    /// A new domain with these settings, which keeps its first `room` calls.
    ///
    /// `NoCells` if a command could be on cells that the settings have not handed out
    /// (`iox2_runs::lacks_cells`); else `OutOfMemory` if there is no room for the domain or for the calls.
    pub fn new(
        alloc: Global,
        config: ServiceConfig,
        room: usize,
    ) -> Result<Self, RecordedCreateError>
        ensures recorded { IfOk result (λ r. IsRecorded (defaults_of T.is_default U.is_default) r) }
        ensures empty { IfOk result (λ r. (r.config ≡ config) × (vec_len r.commands ≡ 0) × (vec_len r.replies ≡ 0) × (r.missed ≡ 0)) }
        ensures room { IfOk result (λ r. HasCallRoom r room) }
        ensures names { IfOk result HasNames }
        ensures no_cells { lacks_cells config ≡ true → result ≡ Err NoCells }
        ensures out_of_memory { lacks_cells config ≡ false → IfErr result (λ error. error ≡ OutOfMemory) }
    {
        if lacks_cells(&config) {
            return Err(RecordedCreateError::NoCells);
        }
        let commands = Vec::with_capacity(alloc, room)?;
        let replies = Vec::with_capacity(alloc, room)?;
        let table = Vec::with_capacity(alloc, room)?;
        let Ok(domain) = Domain::with_handlers(alloc, config) else {
            disown_all(table);
            return Err(RecordedCreateError::OutOfMemory);
        };
        Ok(Recorded {
            config,
            domain,
            table,
            commands,
            replies,
            missed: 0,
        })
    }

    /// Carries out a command, and keeps it with its reply if there is room and no call was missed
    /// before. Else it is missed, which `missed` counts.
    ///
    /// `AllocError` if there is no room to name what the command makes. Then it isn't carried out. A call
    /// that is kept takes no memory for that, and isn't refused so; only one that is missed may.
    pub fn call(&mut self, command: Command<T, U>) -> Result<Reply<T, U>, AllocError>
        requires recorded { IsRecorded (defaults_of T.is_default U.is_default) self.old }
        ensures recorded { IsRecorded (defaults_of T.is_default U.is_default) self.new }
        ensures settings { self.new.config ≡ self.old.config }
        ensures carries { IfOk result (λ reply. IsCarriedOut (defaults_of T.is_default U.is_default) self.old self.new command reply) }
        ensures keeps { IfOk result (λ reply. KeepsCall self.old self.new command reply) }
        ensures names { HasNames self.old → HasNames self.new }
        ensures granted { HasNames self.old → has_room_for_call self.old ≡ true → IsOk result }
        ensures refused { IfErr result (λ _. SameRecording self.old self.new) }
    {
        self.table.reserve(1)?;
        // The proof rests on this: a step names default values.
        has_default::<T>();
        has_default::<U>();
        let (reply, made) = carry_out(&mut self.domain, &mut self.table, command);
        self.table.push_reserved(made);
        if self.has_room() {
            self.commands.push_reserved(command);
            self.replies.push_reserved(reply);
        } else {
            self.missed = self.missed.saturating_add(1);
        }
        Ok(reply)
    }

    /// Whether the next call is kept.
    pub fn has_room(&self) -> bool
        ensures { result ≡ has_room_for_call self.now }
    {
        self.missed == 0
            && self.commands.len() < self.commands.capacity()
            && self.replies.len() < self.replies.capacity()
    }

    /// How many calls were missed because there was no room. The recording is whole if it is 0.
    pub fn missed(&self) -> u64
        ensures { result ≡ self.now.missed }
    {
        self.missed
    }

    /// The calls that are kept, in order.
    pub fn commands(&self) -> &[Command<T, U>]
        ensures { result.now ≡ self.now.commands.items }
    {
        self.commands.as_slice()
    }

    /// The replies to them. The calls have a run with these replies on a new domain.
    pub fn replies(&self) -> &[Reply<T, U>]
        requires recorded { IsRecorded (defaults_of T.is_default U.is_default) self.now }
        ensures replies { result.now ≡ self.now.replies.items }
        ensures ran { WasRun (defaults_of T.is_default U.is_default) self.now.config self.now.commands.items result.now }
    {
        self.replies.as_slice()
    }

    /// The domain.
    pub fn domain(&self) -> &Domain<T, U, F, G>
        ensures { result.now ≡ self.now.domain }
    {
        &self.domain
    }

    /// The domain, the calls that are kept and their replies. What the calls made stays in the domain.
    pub fn finish(self) -> (Domain<T, U, F, G>, Vec<Command<T, U>>, Vec<Reply<T, U>>)
        requires recorded { IsRecorded (defaults_of T.is_default U.is_default) self }
        ensures domain { result.0 ≡ self.domain }
        ensures kept { (result.1.items ≡ self.commands.items) × (result.2.items ≡ self.replies.items) }
        ensures ran { WasRun (defaults_of T.is_default U.is_default) self.config result.1.items result.2.items }
    {
        let Recorded {
            config: _,
            domain,
            table,
            commands,
            replies,
            missed: _,
        } = self;
        disown_all(table);
        (domain, commands, replies)
    }
}
