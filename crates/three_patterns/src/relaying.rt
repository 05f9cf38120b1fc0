//! Numbers are relayed from one service to another.
ghost use Rattle.std.specs.Prelude.{◌≡◌, IfOk};
ghost use Rattle.three_patterns.specs.Ports.{IsSetUp};

use crate::failure::Failure;
use crate::ports::{join, settings};
use message_patterns::{Numbers, relay_if_idle};
use std::alloc::Global;

/// Sends the numbers in one service, has them relayed to another, and returns what is read there.
pub fn relay_numbers(alloc: Global, numbers: &[u32]) -> Result<Vec<u32>, Failure>
    ensures same { IfOk result (λ read. read.items ≡ numbers.now) }
{
    let mut from = Numbers::with_handlers(alloc, settings(1))?;
    let mut to = Numbers::with_handlers(alloc, settings(2))?;
    relay_between(alloc, &mut from, &mut to, numbers)
}

// Makes the ports of both services, has the numbers relayed, and closes the ports.
fn relay_between(
    alloc: Global,
    from: &mut Numbers,
    to: &mut Numbers,
    numbers: &[u32],
) -> Result<Vec<u32>, Failure>
    requires from { IsSetUp from.old }
    requires to { IsSetUp to.old }
    ensures same { IfOk result (λ read. read.items ≡ numbers.now) }
{
    let near = join(from)?;
    let far = match join(to) {
        Ok(far) => far,
        Err(error) => {
            near.close(from);
            return Err(error);
        }
    };
    let relayed = relay_if_idle(
        alloc,
        from,
        &near.publisher,
        &near.subscriber,
        to,
        &far.publisher,
        &far.subscriber,
        numbers,
    );
    near.close(from);
    far.close(to);
    match relayed? {
        Some(read) => Ok(read),
        None => Err(Failure::Busy),
    }
}
