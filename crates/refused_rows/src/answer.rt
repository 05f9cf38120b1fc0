//! What the ports of a row answer where a connection is refused memory.
ghost use Rattle.std.specs.Prelude.{◌≡◌};
ghost use Rattle.iox2_pubsub.specs.declared.BackpressureAction.TheVariants.{DiscardData};

use iox2_pubsub::{
    BackpressureAction, BackpressureFn, BackpressureInfo, DegradationAction, DegradationCause,
    DegradationFn, DegradationHandler, DegradationInfo, Domain,
};

/// The domain of a row.
pub(crate) type Service = Domain<u64, (), Hasty, Told>;

/// What one of its ports does where a connection is refused memory.
pub(crate) type Handler = DegradationHandler<Told>;

/// One answer, given by a box or not.
#[derive(Clone, Copy)]
pub(crate) struct Answer {
    action: DegradationAction,
    is_boxed: bool,
}

impl Answer {
    /// The answer that a word says.
    pub(crate) fn parse(word: &str) -> Option<Answer> {
        let (action, is_boxed) = match word {
            "ignore" => (DegradationAction::Ignore, false),
            "warn" => (DegradationAction::Warn, false),
            "fail" => (DegradationAction::DegradeAndFail, false),
            "ignore_boxed" => (DegradationAction::Ignore, true),
            "warn_boxed" => (DegradationAction::Warn, true),
            "fail_boxed" => (DegradationAction::DegradeAndFail, true),
            _ => return None,
        };
        Some(Answer { action, is_boxed })
    }

    /// A handler that gives it, in a row in which the port with the id 2 is a publisher or a subscriber.
    pub(crate) fn handler(self, is_publisher_second: bool) -> Handler {
        if !self.is_boxed {
            return DegradationHandler::Fixed(self.action);
        }
        DegradationHandler::Custom(Told {
            action: self.action,
            is_publisher_second,
        })
    }
}

/// Passes a full subscriber over. No port of a row has it.
#[derive(Drop)]
pub(crate) struct Hasty;

impl BackpressureFn for Hasty {
    ghost allows = { λ _ _ action. action ≡ DiscardData };

    fn call(&self, _: &BackpressureInfo) -> BackpressureAction {
        BackpressureAction::DiscardData
    }
}

/// Gives the answer where it is told of the row's service and its port with the id 2, and another one
/// elsewhere.
#[derive(Drop)]
pub(crate) struct Told {
    action: DegradationAction,
    is_publisher_second: bool,
}

impl DegradationFn for Told {
    ghost allows = { λ _ _ _ _. Unit {0} };

    fn call(&self, _: DegradationCause, info: &DegradationInfo) -> DegradationAction {
        let second = if self.is_publisher_second {
            info.sender_port_id
        } else {
            info.receiver_port_id
        };
        if info.service_id == 7 && second == 2 {
            return self.action;
        }
        match self.action {
            DegradationAction::DegradeAndFail => DegradationAction::Ignore,
            _ => DegradationAction::DegradeAndFail,
        }
    }
}
