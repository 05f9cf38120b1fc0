//! What a domain has of a publisher.
ghost use Rattle.std.specs.Prelude.{◌≡◌, [], IfOk};

use crate::boxes::Boxes;
use crate::due::Due;
use crate::handlers::{AskedBox, HandlerMark};
use crate::options::PublisherOptions;
use crate::places::{clear_in, put_at_place, reserve_place};
use crate::ports::Port;
use circular_buffer::HeapCircularBuffer;
use iox2_connections::receiver::key_in;
use iox2_connections::sender::Progress;
use iox2_machine::{
    AllocationStrategy, BackpressureAction, BackpressureHandler, BackpressureStrategy,
    DegradationAction, ServiceConfig, UniquePublisherId,
};
use std::alloc::{AllocError, Global};
use std::marker::Model;

/// A message whose delivery waits for a receiver.
#[derive(Clone, Copy)]
pub struct BlockedDelivery {
    /// The slot of the message, which is a loan that is out until the delivery ends.
    pub slot: usize,
    /// The channel that it goes into.
    pub channel: usize,
    /// Whether it goes to the receiver for which it waits, and to no later one.
    pub is_alone: bool,
    /// How far the delivery has come. It waits for the receiver at the first place that remains.
    pub progress: Progress,
}

/// A publisher that wasn't closed. It knows its slots by their numbers in its book, and its
/// connections by their keys. It lends only slots of its current segment, which is its last: the
/// slots of its book from `segment_start` on.
///
/// iceoryx2's `PublisherSharedState` (`src/port/publisher.rs`) and `Sender`
/// (`src/port/details/sender.rs`).
#[derive(Drop)]
pub struct PublisherState {
    pub id: UniquePublisherId,
    pub place: usize,
    pub book: usize,
    pub max_loaned_samples: usize,
    pub slots: usize,
    pub strategy: BackpressureStrategy,
    // What answers for it at a full buffer.
    pub backpressure_handler: Option<HandlerMark<BackpressureAction>>,
    // What answers for it when it can't make a connection.
    pub degradation: HandlerMark<DegradationAction>,
    // How its memory grows.
    pub allocation: AllocationStrategy,
    pub initial_max_slice_len: usize,
    // The length of the longest loan that it granted.
    pub longest_granted: usize,
    // How many segments it has made.
    pub segments: usize,
    // The first slot of the current segment.
    pub segment_start: usize,
    // The length for which the current segment was made.
    pub segment_length: usize,
    // The slots of the loans that are out, by rising number of the message.
    pub loans: Vec<usize>,
    // The slots of the last messages sent.
    pub history: HeapCircularBuffer<usize>,
    // At each subscriber's place the key of the connection with it.
    pub keys: Vec<Option<usize>>,
    // What it does before its next message. The view has whether it updates its connections.
    pub due: Due,
    // How many of its older slots, those before the current segment, had a holder when it last looked, and
    // how many slots were free then. No view has these two, and any numbers will do. They lie beside a flag,
    // so that a publisher takes no byte more (docs/DECISIONS.md, "Older slots go at the next loan, send
    // or update").
    pub held_older: u16,
    pub known_free: u32,
    // The delivery that waits for a receiver.
    pub blocked: Option<BlockedDelivery>,
}

impl Model for PublisherState {
    ghost use Rattle.std.specs.Prelude.{vec_capacity};
    ghost use Rattle.iox2_domain.specs.Due.{is_to_connect};
    ghost use Rattle.iox2_domain.specs.Handlers.{handler_if_any, handler_of};
    ghost use Rattle.iox2_domain.specs.Ports.{PublisherFields};

    ghost Value = { PublisherFields };

    ghost view = { λ x. record {
      id = x.id;
      place = x.place;
      book = x.book;
      max_loaned_samples = x.max_loaned_samples;
      slots = x.slots;
      strategy = x.strategy;
      backpressure_handler = handler_if_any x.backpressure_handler;
      degradation_handler = handler_of x.degradation;
      allocation = x.allocation;
      initial_max_slice_len = x.initial_max_slice_len;
      longest_granted = x.longest_granted;
      segments = x.segments;
      segment_start = x.segment_start;
      segment_length = x.segment_length;
      loans = x.loans.items;
      loan_room = vec_capacity x.loans;
      history = x.history;
      keys = x.keys.items;
      key_room = vec_capacity x.keys;
      is_due = is_to_connect x.due;
      blocked = x.blocked;
    } };
}

impl PublisherState {
    ghost use Rattle.circular_buffer.specs.Buffer.{buffer};
    ghost use Rattle.iox2_domain.specs.Invariant.{HasPublisherRoom};
    ghost use Rattle.std.specs.Prelude.{true};
    ghost use Rattle.iox2_machine.specs.machine.Limits.{segment_fits};
    ghost use Rattle.iox2_domain.specs.Handlers.{handler_if_any};
    ghost use Rattle.iox2_domain.specs.NewPublisher.{entering_publisher, growing_publisher};

    /// A publisher that enters at a place, with a book at a key. The book has `slots` slots for
    /// messages of `initial_max_slice_len` elements; they are the publisher's first segment. The
    /// publisher has room for all the loans and the history that it may get.
    pub fn new(
        alloc: Global,
        config: &ServiceConfig,
        id: UniquePublisherId,
        place: usize,
        book: usize,
        given: &PublisherOptions,
        handler: Option<HandlerMark<BackpressureAction>>,
        allocation: AllocationStrategy,
        slots: usize,
    ) -> Result<Self, AllocError>
        requires { segment_fits config.now slots given.now.initial_max_slice_len ≡ true }
        ensures enters { IfOk result (λ x. x ≡ entering_publisher id place book
            (growing_publisher given.now (handler_if_any handler) allocation) slots x.loan_room
            (buffer [] (config.now).history_size) x.key_room) }
        ensures room { IfOk result (HasPublisherRoom config.now) }
    {
        let loans = Vec::with_capacity(alloc, given.max_loaned_samples)?;
        let history = HeapCircularBuffer::with_capacity(alloc, config.history_size)?;
        Ok(PublisherState {
            id,
            place,
            book,
            max_loaned_samples: given.max_loaned_samples,
            slots,
            strategy: given.strategy,
            backpressure_handler: handler,
            degradation: given.degradation,
            allocation,
            initial_max_slice_len: given.initial_max_slice_len,
            longest_granted: 0,
            segments: 1,
            segment_start: 0,
            segment_length: given.initial_max_slice_len,
            loans,
            history,
            keys: Vec::new(alloc),
            due: Due::Connecting,
            held_older: 0,
            known_free: 0,
            blocked: None,
        })
    }
}

impl PublisherState {
    ghost use Rattle.iox2_connections.specs.Handlers.{marks_of};
    ghost use Rattle.iox2_domain.specs.Handlers.{AsksFor};

    /// What answers for it at a full buffer. A box is among these boxes.
    pub fn handler<'a, F, G>(
        &self,
        boxes: &'a Boxes<F, G>,
    ) -> Option<BackpressureHandler<AskedBox<'a, F, G>>>
        ensures marks { marks_of result ≡ self.now.backpressure_handler }
        ensures asks { AsksFor self.now.id (boxes.now).boxes result }
    {
        match self.backpressure_handler {
            Some(HandlerMark::Fixed(action)) => Some(BackpressureHandler::Fixed(action)),
            Some(HandlerMark::Custom) => Some(BackpressureHandler::Custom(AskedBox {
                boxes,
                id: self.id.value(),
            })),
            None => None,
        }
    }
}

impl Port for PublisherState {
    ghost use Rattle.iox2_domain.specs.Updates.{with_sender_key, with_sender_room, without_sender_key};

    ghost number = { λ x. x.id };

    ghost keys = { λ x. x.keys };

    ghost key_room = { λ x. x.key_room };

    ghost is_due = { λ x. x.is_due };

    ghost degradation = { λ x. x.degradation_handler };

    ghost with_key = { with_sender_key };

    ghost without_key = { without_sender_key };

    ghost with_room = { with_sender_room };

    ghost with_due = { λ due x. record x { is_due = due } };

    fn number(&self) -> u128 {
        self.id.value()
    }

    fn key(&self, place: usize) -> Option<usize> {
        key_in(&self.keys, place)
    }

    fn reserve_key(&mut self, place: usize) -> Result<(), AllocError> {
        reserve_place(&mut self.keys, place)
    }

    fn set_key(&mut self, place: usize, key: usize) {
        put_at_place(&mut self.keys, place, key);
    }

    fn clear_key(&mut self, place: usize) {
        clear_in(&mut self.keys, place);
    }

    fn is_due(&self) -> bool {
        self.due.is_to_connect()
    }

    fn set_due(&mut self, due: bool) {
        self.due = self.due.with_connecting(due);
    }

    fn degradation(&self) -> HandlerMark<DegradationAction> {
        self.degradation
    }
}
