//! Updates of ports.
ghost use Rattle.std.specs.Prelude.{◌≡◌};
ghost use Rattle.std.specs.Option.{option_map_or};
ghost use Rattle.iox2_pubsub.specs.UpdateCalls.{returned_failure};
ghost use Rattle.iox2_machine.specs.machine.Environments.{fixed_handlers};
ghost use Rattle.iox2_runs.specs.Carries.{defaults_of};
ghost use Rattle.iox2_runs.specs.Turns.{IsLiveEntry, Turns};
ghost use Rattle.iox2_commands.specs.declared.command.Command.TheVariants.{Update};
ghost use Rattle.iox2_commands.specs.declared.reply.Reply.TheVariants.{Done, UpdateRefused};

use super::made::{Made, Turn};
use super::ready::ready_publisher;
use iox2_commands::Reply;
use iox2_machine::{BackpressureFn, ConnectionFailure, DegradationFn};
use iox2_pubsub::{Domain, UpdateConnections};

/// Updates the connections of the port, unless it is a publisher that waits for a receiver.
pub(crate) fn update<T: Default + Drop, U: Default + Drop, F: BackpressureFn, G: DegradationFn>(
    domain: &mut Domain<T, U, F, G>,
    held: Made,
) -> Turn<T, U>
    requires { IsLiveEntry domain.old held }
    ensures { Turns fixed_handlers (defaults_of T.is_default U.is_default) domain.old domain.new held Update result }
{
    match held {
        Made::Subscriber(subscriber) => {
            let reply = update_reply(subscriber.update_connections(domain));
            (reply, Made::Subscriber(subscriber), Made::Nothing)
        }
        other => match ready_publisher(domain, other) {
            Ok(publisher) => {
                let reply = update_reply(publisher.update_connections(domain));
                (reply, Made::Publisher(publisher), Made::Nothing)
            }
            Err(other) => (Reply::Skipped, other, Made::Nothing),
        },
    }
}

// What an update replies.
fn update_reply<T, U>(outcome: Result<(), ConnectionFailure>) -> Reply<T, U>
    ensures { result ≡ option_map_or (λ failure. UpdateRefused failure) (returned_failure outcome) Done }
{
    match outcome {
        Ok(()) => Reply::Done,
        Err(failure) => Reply::UpdateRefused(failure),
    }
}
