//! The warnings of a domain.
ghost use Rattle.std.specs.Prelude.{◌≡◌, IfOk};
ghost use Rattle.circular_buffer.specs.Buffer.{buffer};
ghost use Rattle.iox2_machine.specs.machine.Limits.{warning_limit};
ghost use Rattle.iox2_machine.specs.machine.State.{no_warnings, refusal_counted, warned};
ghost use Rattle.iox2_domain.specs.WarningRing.{warning_ring};

use circular_buffer::HeapCircularBuffer;
use iox2_machine::Warning;
use std::alloc::{AllocError, Global};
use std::marker::Model;

// How many warnings are kept.
const WARNING_LIMIT: usize = 32;

/// The last warnings of a domain, and how many connections couldn't be allocated.
#[derive(Drop)]
pub struct Warnings {
    latest: HeapCircularBuffer<Warning>,
    refused_connections: u64,
}

impl Model for Warnings {
    ghost use Rattle.iox2_domain.specs.WarningRing.{WarningRing, warning_ring};

    ghost Value = { WarningRing };

    ghost view = { λ warnings. warning_ring (record
        { latest = warnings.latest.items; refused_connections = warnings.refused_connections })
        warnings.latest.capacity };
}

impl Warnings {
    /// No warning, and no refused connection. Fails if memory is refused.
    pub fn new(alloc: Global) -> Result<Self, AllocError>
        ensures { IfOk result (λ warnings. warnings ≡ warning_ring no_warnings warning_limit) }
    {
        let latest = HeapCircularBuffer::with_capacity(alloc, WARNING_LIMIT)?;
        Ok(Warnings {
            latest,
            refused_connections: 0,
        })
    }

    /// Adds a warning. Past the limit the oldest is forgotten.
    pub fn warn(&mut self, warning: Warning)
        requires { self.old.capacity ≡ warning_limit }
        ensures { self.new ≡ warning_ring (warned self.old.items warning) warning_limit }
    {
        self.latest.push_back(warning);
    }

    /// Counts a connection that couldn't be allocated. The count stays at its greatest value.
    pub fn count_refusal(&mut self)
        ensures { self.new ≡ warning_ring (refusal_counted self.old.items) self.old.capacity }
    {
        self.refused_connections = self.refused_connections.saturating_add(1);
    }

    /// The last warnings, oldest first.
    pub fn latest(&self) -> &HeapCircularBuffer<Warning>
        ensures { result.now ≡ buffer self.now.items.latest self.now.capacity }
    {
        &self.latest
    }

    /// How many connections couldn't be allocated. `u64::MAX` means that many or more.
    pub fn refused_connections(&self) -> u64
        ensures { result ≡ self.now.items.refused_connections }
    {
        self.refused_connections
    }
}
