//! The display shows what waits for it.
ghost use Rattle.std.specs.Prelude.{◌≡◌, OnOk};
ghost use Rattle.iox2_pubsub.specs.Live.{Stays, waiting};
ghost use Rattle.slow_display.specs.Ports.{CanReceive};

use crate::failure::Failure;
use iox2_pubsub::{Domain, Subscriber};

/// Receives each reading that waits, prints it and gives it back. None waits afterwards.
pub fn show_all(
    rt: &HostRuntime,
    domain: &mut Domain<u32, ()>,
    display: &Subscriber,
) -> Result<(), Failure>
    requires display { CanReceive domain.old display.now }
    ensures stays { Stays domain.old domain.new }
    ensures drained { OnOk result (waiting domain.new display.now ≡ 0) }
{
    while let Some(sample) = display.receive(domain)? {
        let celsius = *sample.payload(domain);
        sample.release(domain);
        println!(rt; "{celsius} °C")?;
    }
    Ok(())
}
