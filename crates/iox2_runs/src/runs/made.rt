//! What a run's commands made.
ghost use Rattle.iox2_runs.specs.Turns.{IsTakenFromTable, IsPutBack};

use iox2_commands::Reply;
use iox2_pubsub::{BlockedSend, Publisher, Sample, SampleMut, SampleMutUninit, Subscriber};
use std::mem;

/// What a command made, until it is consumed.
pub enum Made {
    /// It made nothing, or that was consumed.
    Nothing,
    /// A publisher.
    Publisher(Publisher),
    /// A subscriber.
    Subscriber(Subscriber),
    /// A loan that isn't written.
    Unwritten(SampleMutUninit),
    /// A written loan.
    Written(SampleMut),
    /// A send that is blocked.
    Blocked(BlockedSend),
    /// A sample.
    Sample(Sample),
}

impl Made {
    /// Consumes the handle. What it named in the domain stays.
    pub fn disown(self) {
        match self {
            Made::Nothing => {}
            Made::Publisher(publisher) => publisher.disown(),
            Made::Subscriber(subscriber) => subscriber.disown(),
            Made::Unwritten(loan) => loan.disown(),
            Made::Written(loan) => loan.disown(),
            Made::Blocked(blocked) => blocked.disown(),
            Made::Sample(sample) => sample.disown(),
        }
    }
}

/// Consumes each of the handles.
pub fn disown_all(mut table: Vec<Made>) {
    while let Some(made) = table.pop() {
        made.disown();
    }
    table.destroy_empty();
}

/// How a command ended: its reply, what it left of what its handle named, and what it made.
pub(crate) type Turn<T, U> = (Reply<T, U>, Made, Made);

/// Takes what the command at the position made out of the table, if there is any.
pub(crate) fn take(table: &mut Vec<Made>, of: usize) -> Made
    ensures { IsTakenFromTable table.old table.new of result }
{
    if of < table.len() {
        mem::replace(&mut table[of], Made::Nothing)
    } else {
        Made::Nothing
    }
}

/// Puts what a command left of what was taken for it back into the table, at the position of the
/// command that made it, and returns the reply and what is made. Past the end it is consumed.
pub(crate) fn put_back<T, U>(
    turn: Turn<T, U>,
    table: &mut Vec<Made>,
    of: usize,
) -> (Reply<T, U>, Made)
    ensures { IsPutBack table.old table.new of turn result }
{
    let (reply, kept, made) = turn;
    if of < table.len() {
        mem::replace(&mut table[of], kept).disown();
    } else {
        kept.disown();
    }
    (reply, made)
}
