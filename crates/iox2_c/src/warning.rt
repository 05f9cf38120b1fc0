//! A domain's warnings, for C.
ghost use Rattle.iox2_c.specs.Warnings.{Says, TellsOf};

use crate::numbers::Wide;
use crate::status::failure_status;
use iox2_pubsub::Warning;

/// Something that a domain did or left undone without failing the call.
#[repr(C)]
#[derive(Clone, Copy)]
pub struct WarningNumbers {
    /// The publisher that it names, or 0.
    pub publisher: Wide,
    /// The subscriber that it names, or 0.
    pub subscriber: Wide,
    /// What it is of: 100 and up, in the order of the library's.
    pub kind: u32,
    /// The code of its failure, or 0.
    pub failure: u32,
}

// A warning that names these ports.
fn of(kind: u32, publisher: u128, subscriber: u128, failure: u32) -> WarningNumbers
    ensures { Says kind publisher subscriber failure result }
{
    WarningNumbers {
        publisher: Wide::of(publisher),
        subscriber: Wide::of(subscriber),
        kind,
        failure,
    }
}

/// The warning's numbers.
pub fn numbers_of(warning: Warning) -> WarningNumbers
    ensures { TellsOf warning result }
{
    match warning {
        Warning::ExpiredBufferRaised { subscriber } => of(100, 0, subscriber.value(), 0),
        Warning::PublisherPartlyConnected { publisher, failure } => {
            of(101, publisher.value(), 0, failure_status(failure))
        }
        Warning::SubscriberPartlyConnected {
            subscriber,
            failure,
        } => of(102, 0, subscriber.value(), failure_status(failure)),
        Warning::ConnectionNotMade { sender, receiver } => {
            of(103, sender.value(), receiver.value(), 0)
        }
        Warning::ExpiredDataDiscarded { sender, receiver } => {
            of(104, sender.value(), receiver.value(), 0)
        }
    }
}
