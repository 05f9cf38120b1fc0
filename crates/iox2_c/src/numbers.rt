//! The numbers by which C names a port, a loan or a message. Each number of 128 bits is two of 64,
//! since none of 128 bits crosses to C.
ghost use Rattle.std.specs.Prelude.{◌≡◌};
ghost use Rattle.iox2_c.specs.Codes.{strategy_numbered};
ghost use Rattle.iox2_c.specs.Numbers.{IsHeader, named_loan, named_publisher, named_sample, named_subscriber, wide};
ghost use Rattle.iox2_pubsub.specs.Live.{lender_key};
ghost use Rattle.iox2_pubsub.specs.Parts.{loan_named, publisher_named, sample_named, subscriber_named};

use crate::config::{strategy_number, strategy_of};
use iox2_pubsub::{Header, Key, LoanParts, PublisherParts, SampleParts, SubscriberParts};

const HALF: u128 = 0x1_0000_0000_0000_0000;

/// A number of 128 bits.
#[repr(C)]
#[derive(Clone, Copy)]
pub struct Wide {
    /// Its lower half.
    pub low: u64,
    /// Its upper half.
    pub high: u64,
}

impl Wide {
    /// The number's halves.
    pub fn of(value: u128) -> Wide
        ensures { wide result ≡ value }
    {
        Wide {
            low: (value % HALF) as u64,
            high: (value / HALF) as u64,
        }
    }

    /// The number with these halves.
    pub fn get(&self) -> u128
        ensures { result ≡ wide self.now }
    {
        self.low as u128 + self.high as u128 * HALF
    }

    // The same number. Its halves are read one by one, since the compiler copies a whole struct by way
    // of the stack.
    fn copied(&self) -> Wide
        ensures { result ≡ self.now }
    {
        Wide {
            low: self.low,
            high: self.high,
        }
    }
}

/// The numbers of a publisher.
#[repr(C)]
#[derive(Clone, Copy)]
pub struct PublisherNumbers {
    /// The number of the service.
    pub service_id: Wide,
    /// The publisher's id.
    pub id: Wide,
    /// Where the domain looks for it first.
    pub place: usize,
    /// How many bytes a message may have.
    pub initial_max_slice_len: usize,
    /// Its strategy, as a number.
    pub backpressure_strategy: u32,
    /// Nothing.
    pub reserved: u32,
}

impl PublisherNumbers {
    /// The numbers of a handle.
    pub fn of(parts: PublisherParts) -> PublisherNumbers
        ensures named { named_publisher result ≡ publisher_named parts }
        ensures longest { result.initial_max_slice_len ≡ parts.initial_max_slice_len }
        ensures strategy { strategy_numbered result.backpressure_strategy ≡ parts.strategy }
    {
        PublisherNumbers {
            service_id: Wide::of(parts.service_id),
            id: Wide::of(parts.id),
            place: parts.place,
            initial_max_slice_len: parts.initial_max_slice_len,
            backpressure_strategy: strategy_number(parts.strategy),
            reserved: 0,
        }
    }

    /// The same for a domain.
    pub fn parts(&self) -> PublisherParts
        ensures { publisher_named result ≡ named_publisher self.now }
    {
        PublisherParts {
            service_id: self.service_id.get(),
            id: self.id.get(),
            place: self.place,
            strategy: strategy_of(self.backpressure_strategy),
            initial_max_slice_len: self.initial_max_slice_len,
        }
    }
}

/// The numbers of a subscriber.
#[repr(C)]
#[derive(Clone, Copy)]
pub struct SubscriberNumbers {
    /// The number of the service.
    pub service_id: Wide,
    /// The subscriber's id.
    pub id: Wide,
    /// Where the domain looks for it first.
    pub place: usize,
    /// How many messages of one publisher may wait.
    pub buffer_size: usize,
}

impl SubscriberNumbers {
    /// The numbers of a handle.
    pub fn of(parts: SubscriberParts) -> SubscriberNumbers
        ensures named { named_subscriber result ≡ subscriber_named parts }
        ensures buffer { result.buffer_size ≡ parts.buffer_size }
    {
        SubscriberNumbers {
            service_id: Wide::of(parts.service_id),
            id: Wide::of(parts.id),
            place: parts.place,
            buffer_size: parts.buffer_size,
        }
    }

    /// The same for a domain.
    pub fn parts(&self) -> SubscriberParts
        ensures { subscriber_named result ≡ named_subscriber self.now }
    {
        SubscriberParts {
            service_id: self.service_id.get(),
            id: self.id.get(),
            place: self.place,
            buffer_size: self.buffer_size,
        }
    }
}

/// The numbers of a loan, or of a blocked send.
#[repr(C)]
#[derive(Clone, Copy)]
pub struct LoanNumbers {
    /// The number of the service.
    pub service_id: Wide,
    /// The id of the publisher that lent it.
    pub publisher: Wide,
    /// The number of its message.
    pub number: Wide,
    /// Where its publisher is looked for first.
    pub place: usize,
    /// The book in which it is looked for first.
    pub book: usize,
    /// The slot in which it is looked for first.
    pub slot: usize,
}

impl LoanNumbers {
    /// The numbers of a handle.
    pub fn of(parts: LoanParts) -> LoanNumbers
        ensures { named_loan result ≡ loan_named parts }
    {
        LoanNumbers {
            service_id: Wide::of(parts.service_id),
            publisher: Wide::of(parts.publisher),
            number: Wide::of(parts.number),
            place: parts.place,
            book: parts.book,
            slot: parts.slot,
        }
    }

    /// The numbers of a loan that the publisher with these numbers lent. The service's and the
    /// publisher's are taken from there.
    pub fn lent_by(lender: &PublisherNumbers, parts: &LoanParts) -> LoanNumbers
        requires { lender_key (loan_named parts.now) ≡ named_publisher lender.now }
        ensures { named_loan result ≡ loan_named parts.now }
    {
        LoanNumbers {
            service_id: lender.service_id.copied(),
            publisher: lender.id.copied(),
            number: Wide::of(parts.number),
            place: parts.place,
            book: parts.book,
            slot: parts.slot,
        }
    }

    /// The same for a domain.
    pub fn parts(&self) -> LoanParts
        ensures { loan_named result ≡ named_loan self.now }
    {
        LoanParts {
            service_id: self.service_id.get(),
            publisher: self.publisher.get(),
            number: self.number.get(),
            place: self.place,
            book: self.book,
            slot: self.slot,
        }
    }
}

/// The numbers of a message that a subscriber has borrowed.
#[repr(C)]
#[derive(Clone, Copy)]
pub struct SampleNumbers {
    /// The number of the service.
    pub service_id: Wide,
    /// The id of the publisher that sent it.
    pub origin: Wide,
    /// The id of the subscriber that has borrowed it.
    pub subscriber: Wide,
    /// Its number.
    pub number: Wide,
    /// The connection in which it is looked for first.
    pub connection: usize,
    /// The book in which it is looked for first.
    pub book: usize,
    /// The slot in which it is looked for first.
    pub slot: usize,
}

impl SampleNumbers {
    /// The numbers of a handle.
    pub fn of(parts: SampleParts) -> SampleNumbers
        ensures named { named_sample result ≡ sample_named parts }
        ensures origin { wide result.origin ≡ parts.origin }
    {
        SampleNumbers {
            service_id: Wide::of(parts.service_id),
            origin: Wide::of(parts.origin),
            subscriber: Wide::of(parts.subscriber),
            number: Wide::of(parts.number),
            connection: parts.connection,
            book: parts.book,
            slot: parts.slot,
        }
    }

    /// The numbers of a sample that the subscriber with these numbers received. The service's and the
    /// subscriber's are taken from there.
    pub fn received_by(receiver: &SubscriberNumbers, parts: &SampleParts) -> SampleNumbers
        requires service { parts.now.service_id ≡ wide (receiver.now).service_id }
        requires subscriber { parts.now.subscriber ≡ wide (receiver.now).id }
        ensures named { named_sample result ≡ sample_named parts.now }
        ensures origin { wide result.origin ≡ parts.now.origin }
    {
        SampleNumbers {
            service_id: receiver.service_id.copied(),
            origin: Wide::of(parts.origin),
            subscriber: receiver.id.copied(),
            number: Wide::of(parts.number),
            connection: parts.connection,
            book: parts.book,
            slot: parts.slot,
        }
    }

    /// The same for a domain.
    pub fn parts(&self) -> SampleParts
        ensures { sample_named result ≡ named_sample self.now }
    {
        SampleParts {
            service_id: self.service_id.get(),
            origin: self.origin.get(),
            subscriber: self.subscriber.get(),
            number: self.number.get(),
            connection: self.connection,
            book: self.book,
            slot: self.slot,
        }
    }

    /// The key that they name.
    pub fn key(&self) -> Key
        ensures { result ≡ named_sample self.now }
    {
        Key {
            service_id: self.service_id.get(),
            port: self.subscriber.get(),
            message: self.number.get(),
        }
    }
}

/// Where a message comes from.
#[repr(C)]
#[derive(Clone, Copy)]
pub struct HeaderNumbers {
    /// The node of the publisher.
    pub node_id: Wide,
    /// The publisher that lent the message.
    pub publisher: Wide,
    /// How many bytes it has.
    pub number_of_elements: u64,
}

impl HeaderNumbers {
    /// The numbers of a header.
    pub fn of(header: &Header) -> HeaderNumbers
        ensures { IsHeader header.now result }
    {
        HeaderNumbers {
            node_id: Wide::of(header.node_id.value()),
            publisher: Wide::of(header.publisher_id.value()),
            number_of_elements: header.number_of_elements,
        }
    }
}
