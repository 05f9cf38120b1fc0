//! A publisher among many.
ghost use Rattle.std.specs.Prelude.{◌≡◌};

use iox2_pubsub::Publisher;

/// A publisher whose handle is disowned when it goes out of scope.
pub struct Sender {
    /// The publisher.
    pub publisher: Publisher,
}

impl Sender {
    /// The publisher, which its caller consumes.
    pub fn into_publisher(self) -> Publisher
        ensures { result ≡ self.publisher }
    {
        let Sender { publisher } = self;
        publisher
    }
}

impl Drop for Sender {
    fn drop(self) {
        let Sender { publisher } = self;
        publisher.disown();
    }
}
