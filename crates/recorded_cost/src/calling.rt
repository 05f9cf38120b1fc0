//! The calls are made.
ghost use Rattle.iox2_runs.specs.Carries.{defaults_of};
ghost use Rattle.iox2_recorded.specs.Recorded.{IsRecorded};

use crate::calls::{first_calls, service};
use iox2_commands::{Command, Reply};
use iox2_machine::{BackpressureFn, DegradationFn, ServiceConfig};
use iox2_pubsub::Domain;
use iox2_recorded::Recorded;
use iox2_runs::run;
use std::alloc::{AllocError, Global};

type Recorder<T, U> = Recorded<T, U, Box<dyn BackpressureFn>, Box<dyn DegradationFn>>;

/// How many of that many calls a new domain keeps that has room for `room`. `None` where memory is refused.
pub(crate) fn count_kept(alloc: Global, room: usize, calls: usize) -> Option<usize> {
    let calls = first_calls(alloc, calls).ok()?;
    kept_of(alloc, service(), calls.as_slice(), room)
}

// How many of these calls a new domain keeps that has so much room.
fn kept_of<T: Copy + Default + Drop, U: Copy + Default + Drop>(
    alloc: Global,
    config: ServiceConfig,
    calls: &[Command<T, U>],
    room: usize,
) -> Option<usize> {
    let Ok(mut recorded) = Recorder::<T, U>::new(alloc, config, room) else {
        return None;
    };
    let called = call_all(&mut recorded, calls);
    let (_domain, commands, _replies) = recorded.finish();
    called.ok()?;
    Some(commands.len())
}

fn call_all<
    T: Copy + Default + Drop,
    U: Copy + Default + Drop,
    F: BackpressureFn,
    G: DegradationFn,
>(recorded: &mut Recorded<T, U, F, G>, calls: &[Command<T, U>]) -> Result<(), AllocError>
    requires { IsRecorded (defaults_of T.is_default U.is_default) recorded.old }
    ensures { IsRecorded (defaults_of T.is_default U.is_default) recorded.new }
{
    for call in calls {
        recorded.call(*call)?;
    }
    Ok(())
}

/// How many messages are received by that many calls on a new domain. `None` where memory is refused.
pub(crate) fn count_received(alloc: Global, calls: usize) -> Option<usize> {
    let mut calls = first_calls(alloc, calls).ok()?;
    calls.push(Command::Nothing).ok()?;
    let mut domain = Domain::<u64, u64>::new(alloc, service()).ok()?;
    let replies = run(alloc, &mut domain, calls).ok()?;
    let received = replies.iter().filter(|reply| is_sample(reply));
    Some(received.count())
}

fn is_sample(reply: &Reply<u64, u64>) -> bool {
    matches!(reply, Reply::Sample(_))
}
