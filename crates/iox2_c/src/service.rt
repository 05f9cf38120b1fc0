//! A domain whose messages are bytes.

use crate::config::Config;
use crate::recording::{Recording, Room};
use iox2_pubsub::{Domain, NoHandler};
use std::alloc::Global;
use std::marker::Model;

/// A domain whose messages are slices of bytes, and whose ports have no handlers of their own.
pub type BytesDomain = Domain<u8, (), NoHandler, NoHandler>;

/// A domain of bytes, and what its ports have where nothing else is said.
#[derive(Drop)]
pub struct Service {
    /// The domain.
    pub domain: BytesDomain,
    /// How many bytes a message of a publisher may have.
    pub payload_size: usize,
    /// To what each payload is aligned: 1, 2, 4, 8 or 16.
    pub payload_alignment: usize,
    /// What is recorded of it.
    pub recording: Recording,
}

impl Model for Service {
    ghost use Rattle.iox2_c.specs.Serving.{Serving, IsOfBytes};

    ghost Value = { Serving };

    ghost view = { λ s. record { domain = s.domain; payload_size = s.payload_size; payload_alignment = s.payload_alignment } };

    ghost invariant = { λ s. IsOfBytes s.domain };
}

impl Service {
    ghost use Rattle.std.specs.Prelude.{◌≡◌, IfSome};
    ghost use Rattle.iox2_machine.specs.machine.State.{fresh, no_messages};
    ghost use Rattle.iox2_domain.specs.Shows.{Shows};
    ghost use Rattle.iox2_c.specs.Settings.{settings_of};

    /// A domain with these settings, which is recorded where there is room for that. `None` where
    /// memory is refused.
    pub fn new(alloc: Global, config: &Config, room: Option<Room>) -> Option<Service>
        ensures fresh { IfSome result (λ it. Shows it.domain no_messages (fresh (settings_of config.now))) }
        ensures size { IfSome result (λ it. it.payload_size ≡ config.now.payload_size) }
        ensures alignment { IfSome result (λ it. it.payload_alignment ≡ config.now.payload_alignment) }
    {
        let domain = BytesDomain::with_handlers(alloc, config.service_config()).ok()?;
        Some(Service {
            domain,
            payload_size: config.payload_size,
            payload_alignment: config.payload_alignment,
            recording: Recording::new(alloc, room)?,
        })
    }
}
