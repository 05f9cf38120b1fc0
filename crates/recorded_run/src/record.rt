ghost use Rattle.iox2_runs.specs.Carries.{defaults_of};
ghost use Rattle.iox2_recorded.specs.Recorded.{IsRecorded};

use crate::failure::Failure;
use iox2_commands::{Command, Reply};
use iox2_machine::{BackpressureFn, DegradationFn, ServiceConfig};
use iox2_recorded::Recorded;
use std::alloc::{AllocError, Global};

type Recorder<T, U> = Recorded<T, U, Box<dyn BackpressureFn>, Box<dyn DegradationFn>>;

/// The calls that a recorded domain with that much room keeps, their replies, and how many it misses.
pub(crate) fn record<T: Copy + Default + Drop, U: Copy + Default + Drop>(
    alloc: Global,
    config: ServiceConfig,
    calls: &[Command<T, U>],
    room: usize,
) -> Result<(Vec<Command<T, U>>, Vec<Reply<T, U>>, u64), Failure> {
    let mut recorded = Recorder::<T, U>::new(alloc, config, room)?;
    let called = call_all(&mut recorded, calls);
    let missed = recorded.missed();
    let (_domain, commands, replies) = recorded.finish();
    called?;
    Ok((commands, replies, missed))
}

fn call_all<
    T: Copy + Default + Drop,
    U: Copy + Default + Drop,
    F: BackpressureFn,
    G: DegradationFn,
>(recorded: &mut Recorded<T, U, F, G>, calls: &[Command<T, U>]) -> Result<(), AllocError>
    requires { IsRecorded (defaults_of T.is_default U.is_default) recorded.old }
    ensures { IsRecorded (defaults_of T.is_default U.is_default) recorded.new }
{
    for call in calls {
        recorded.call(*call)?;
    }
    Ok(())
}
