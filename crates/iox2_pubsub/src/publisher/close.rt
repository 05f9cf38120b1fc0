//! A publisher is closed.
ghost use Rattle.std.specs.Prelude.{◌≡◌, ◌≢◌, ◌≤◌, suc, ℕ};

use crate::domain::Domain;
use crate::publisher::Publisher;
use iox2_machine::{BackpressureFn, DegradationFn};
use iox2_ports::close_publisher;

impl Publisher {
    ghost use Rattle.std.specs.Prelude.{None, Some};
    ghost use Rattle.iox2_machine.specs.machine.Ports.{publisher_closed};
    ghost use Rattle.iox2_machine.specs.machine.Records.{Publisher as Record};
    ghost use Rattle.iox2_machine.specs.machine.State.{State, Messages};
    ghost use Rattle.iox2_pubsub.specs.Live.{HasRoomFor, IsConnected, IsPublisherKey, IsReadyPublisher, IsUpToDate};
    ghost use Rattle.iox2_pubsub.specs.Live.{StaysBut, degradation_box, handler_box, publisher_key, publisher_port};
    ghost use Rattle.iox2_pubsub.specs.Live.{payloads_from, waiting};
    ghost use Rattle.iox2_pubsub.specs.BorrowsLeft.{BorrowsLeftStay};
    ghost use Rattle.iox2_pubsub.specs.LoansLeft.{NumbersLeftStay, OthersLoansLeftStay};
    ghost use Rattle.iox2_pubsub.specs.declared.subscriber.Subscriber.{Subscriber};
    ghost use Rattle.iox2_pubsub.specs.Handles.{publisher_id};
    ghost use Rattle.iox2_domain.specs.Shows.{Shows};

    /// Closes the publisher: it is gone, and its place is free for another. What it has sent can be
    /// received as before by each open subscriber that has updated its connections since the
    /// publisher came; what waits for another is lost. Samples stay. So do its loans: they can be
    /// written, read and given back, and sending one fails. Takes no memory.
    ///
    /// iceoryx2's `Publisher`, when it is dropped (`src/port/publisher.rs`).
    pub fn close<T: Drop, U: Default + Drop, F: BackpressureFn, G: DegradationFn>(
        self,
        domain: &mut Domain<T, U, F, G>,
    )
        requires ready { IsReadyPublisher domain.old self }
        ensures closed { (m : Messages T U) (s : State T U) (x : Record) → Shows domain.old m s → s.publishers (publisher_key self).port ≡ Some x
            → Shows domain.new m (publisher_closed s (publisher_key self).port x) }
        ensures spent { IsPublisherKey domain.new (publisher_key self) → ⊥ }
        ensures unboxed { handler_box domain.new (publisher_key self).port ≡ None }
        ensures undegraded { degradation_box domain.new (publisher_key self).port ≡ None }
        ensures no_fewer { (subscriber : Subscriber) → IsUpToDate domain.old subscriber → waiting domain.old subscriber ≤ waiting domain.new subscriber }
        ensures keeps { (publisher : ℕ) (subscriber : Subscriber) → IsUpToDate domain.old subscriber → IsConnected domain.old publisher subscriber
            → payloads_from domain.new publisher subscriber ≡ payloads_from domain.old publisher subscriber }
        ensures connections { (publisher : ℕ) (subscriber : Subscriber) → publisher ≢ publisher_id self
            → IsConnected domain.old publisher subscriber → IsConnected domain.new publisher subscriber }
        ensures room { (subscriber : Subscriber) (closes : ℕ) → HasRoomFor domain.old subscriber (suc closes) → HasRoomFor domain.new subscriber closes }
        ensures loans_left { OthersLoansLeftStay self domain.old domain.new }
        ensures numbers_left { NumbersLeftStay domain.old domain.new }
        ensures borrows_left { BorrowsLeftStay domain.old domain.new }
        ensures stays { StaysBut (publisher_port self) domain.old domain.new }
    {
        let Publisher {
            service_id: _,
            id,
            place,
            strategy: _,
            initial_max_slice_len: _,
        } = self;
        close_publisher(&mut domain.state, place);
        domain.boxes.remove(id.value());
    }
}
