//! A subscriber among many.
ghost use Rattle.std.specs.Prelude.{◌≡◌};

use iox2_pubsub::Subscriber;

/// A subscriber whose handle is disowned when it goes out of scope.
pub struct Receiver {
    /// The subscriber.
    pub subscriber: Subscriber,
}

impl Receiver {
    /// The subscriber, which its caller consumes.
    pub fn into_subscriber(self) -> Subscriber
        ensures { result ≡ self.subscriber }
    {
        let Receiver { subscriber } = self;
        subscriber
    }
}

impl Drop for Receiver {
    fn drop(self) {
        let Receiver { subscriber } = self;
        subscriber.disown();
    }
}
