//! Two runs, each on a domain of its own.
ghost use Rattle.std.specs.Prelude.{◌≡◌, IfSome, IsNone, true};
ghost use Rattle.iox2_commands.specs.OneDefault.{HasOneDefault};
ghost use Rattle.iox2_runs.specs.Carries.{defaults_of};
ghost use Rattle.iox2_runs.specs.Compared.{RanAfresh, RanWithOneDefault, AreCompared};
ghost use Rattle.iox2_runs.specs.Services.{lacks_cells};

use crate::runs::run;
use iox2_commands::{Command, Reply};
use iox2_machine::{BackpressureFn, DegradationFn, ServiceConfig};
use iox2_pubsub::Domain;
use std::alloc::Global;

/// Runs both lists, each on a new domain with these settings, and returns each domain with its
/// replies. This library's own.
///
/// The second list may leave out some calls of other subscribers than one, which the first has: their
/// receives, questions, updates and calls on channels, and what releases or reads their samples, with
/// `Nothing` in place of each. Publishers may be told something else then, as how many took a message.
/// But that subscriber isn't felt to be slower or faster: if its own receives get the same replies in
/// both runs, it sees the same after each number of commands in both, and reads of its samples get the
/// same replies. This holds if no publisher that was made has memory that grows, each has as many slots
/// as `worst_case_slots` says and never waits for a receiver, each other subscriber that is closed has
/// released all its samples before, in both runs, and in neither run an allocation failed: no port was
/// refused because of one, and `refused_connections` of both domains is 0. All this is said of types
/// that each have one default value alone. For any types, both lists ran, as `run` says of its own.
///
/// `None` if a domain, or the replies of a run, can't be allocated, or if `run` would hand each
/// list back on such a domain (`lacks_cells`), which is never so where messages are single values.
pub fn compare_runs<
    T: Copy + Default + Drop,
    U: Copy + Default + Drop,
    F: BackpressureFn,
    G: DegradationFn,
>(
    alloc: Global,
    config: &ServiceConfig,
    commands: Vec<Command<T, U>>,
    reduced: Vec<Command<T, U>>,
) -> Option<
    (
        (Domain<T, U, F, G>, Vec<Reply<T, U>>),
        (Domain<T, U, F, G>, Vec<Reply<T, U>>),
    ),
>
    ensures ran { IfSome result (λ ends. RanAfresh (defaults_of T.is_default U.is_default) config.now commands.items ends.0.0 ends.0.1.items
        × RanAfresh (defaults_of T.is_default U.is_default) config.now reduced.items ends.1.0 ends.1.1.items) }
    ensures compared { IfSome result (λ ends. HasOneDefault (defaults_of T.is_default U.is_default)
        → (default_value : T) (default_header : U) → T.is_default default_value → U.is_default default_header
        → AreCompared default_value default_header config.now commands.items reduced.items ends.0.0 ends.0.1.items ends.1.0 ends.1.1.items) }
    ensures lacks_cells { lacks_cells config.now ≡ true → IsNone result }
{
    let first = run_afresh(alloc, config, commands)?;
    let second = run_afresh(alloc, config, reduced)?;
    Some((first, second))
}

// Runs the commands on a new domain with these settings.
fn run_afresh<
    T: Copy + Default + Drop,
    U: Copy + Default + Drop,
    F: BackpressureFn,
    G: DegradationFn,
>(
    alloc: Global,
    config: &ServiceConfig,
    commands: Vec<Command<T, U>>,
) -> Option<(Domain<T, U, F, G>, Vec<Reply<T, U>>)>
    ensures ran { IfSome result (λ end. RanAfresh (defaults_of T.is_default U.is_default) config.now commands.items end.0 end.1.items) }
    ensures one_default { IfSome result (λ end. RanWithOneDefault (defaults_of T.is_default U.is_default) config.now commands.items end.0 end.1.items) }
    ensures lacks_cells { lacks_cells config.now ≡ true → IsNone result }
{
    let Ok(mut domain) = Domain::with_handlers(alloc, *config) else {
        return None;
    };
    let Ok(replies) = run(alloc, &mut domain, commands) else {
        return None;
    };
    Some((domain, replies))
}
