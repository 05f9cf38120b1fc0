//! A subscriber is asked whether messages wait.
ghost use Rattle.std.specs.Prelude.{◌<◌, ◌↔◌, IfOk, IsTrue, OnOk};

use crate::domain::Domain;
use crate::subscriber::Subscriber;
use iox2_machine::{BackpressureFn, ConnectionFailure, DegradationFn};
use iox2_messages::has_samples_at;

impl Subscriber {
    ghost use Rattle.iox2_machine.specs.machine.State.{State, Messages};
    ghost use Rattle.iox2_pubsub.specs.BorrowsLeft.{BorrowsLeftStay};
    ghost use Rattle.iox2_pubsub.specs.Leaves.{LeavesButWaiting};
    ghost use Rattle.iox2_pubsub.specs.Live.{IsConsistent, IsLiveSubscriber, IsUpToDate, KeepsAll, waiting, WaitingStays};
    ghost use Rattle.iox2_pubsub.specs.QuestionCalls.{IsAnswered};
    ghost use Rattle.iox2_domain.specs.Boxes.{answers_of};
    ghost use Rattle.iox2_domain.specs.Shows.{Shows};
    ghost use Rattle.iox2_pubsub.specs.Handles.{subscriber_id};

    /// Updates the subscriber's connections and says whether any message waits for it, also one
    /// that it can't receive before it has released another.
    ///
    /// Fails if the update does, as `UpdateConnections::update_connections` says.
    ///
    /// iceoryx2's `Subscriber::has_samples` (`src/port/subscriber.rs`).
    pub fn has_samples<T: Drop, U: Default + Drop, F: BackpressureFn, G: DegradationFn>(
        &self,
        domain: &mut Domain<T, U, F, G>,
    ) -> Result<bool, ConnectionFailure>
        requires live { IsLiveSubscriber domain.old self.now }
        ensures consistent { IsConsistent domain.old }
        ensures answers { (m : Messages T U) (s : State T U) → Shows domain.old m s
            → (s' : State T U) × Shows domain.new m s'
            × IsAnswered (answers_of F.allows G.allows (domain.old.boxes).subscribers) s (subscriber_id self.now)
            result s' }
        ensures waits { IfOk result (λ waits. IsTrue waits ↔ (0 < waiting domain.new self.now)) }
        ensures undisturbed { KeepsAll domain.old self.now → WaitingStays domain.old domain.new }
        ensures updated { OnOk result (IsUpToDate domain.new self.now) }
        ensures borrows_left { BorrowsLeftStay domain.old domain.new }
        ensures leaves { LeavesButWaiting self.now domain.old domain.new }
    {
        has_samples_at(&mut domain.state, &domain.subscriber_boxes, self.place)
    }
}
