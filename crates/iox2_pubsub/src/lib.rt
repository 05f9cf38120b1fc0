//! Publish-subscribe delivery: a domain, and the ports that are made in it.
#![tactic(auto)]

mod blocked_send;
mod custom_markers;
mod domain;
mod keys;
mod kinds;
mod no_handler;
mod parts;
mod port_factory;
mod publisher;
mod sample;
mod sample_mut;
mod sample_mut_uninit;
mod send_outcome;
pub mod slice;
mod subscriber;
mod update_connections;

pub use blocked_send::BlockedSend;
pub use circular_buffer::HeapCircularBuffer;
pub use custom_markers::{CustomHeaderMarker, CustomPayloadMarker};
pub use domain::Domain;
pub use iox2_machine::{
    AllocationStrategy, BackpressureAction, BackpressureFn, BackpressureHandler, BackpressureInfo,
    BackpressureStrategy, BackpressureToReceiverAction, ConnectionFailure, DataSegmentType,
    DegradationAction, DegradationCause, DegradationFn, DegradationHandler, DegradationInfo,
    DomainCreateError, Header, Key, LoanError, PublisherCreateError, ReceiveError, SendError,
    ServiceConfig, SharedMemoryOpenError, SubscriberCreateError, TypeVariant, UniqueNodeId,
    UniquePublisherId, UniqueSubscriberId, Warning, ZeroCopyCreationError, worst_case_slots,
};
pub use kinds::{Slice, Value};
pub use no_handler::NoHandler;
pub use parts::{LoanParts, PublisherParts, SampleParts, SubscriberParts};
pub use port_factory::handles::PortHandle;
pub use port_factory::preallocation::{NoOverride, PreallocatedSamplesOverride};
pub use port_factory::publisher::PortFactoryPublisher;
pub use port_factory::subscriber::PortFactorySubscriber;
pub use publisher::Publisher;
pub use sample::Sample;
pub use sample_mut::SampleMut;
pub use sample_mut_uninit::SampleMutUninit;
pub use send_outcome::SendOutcome;
pub use subscriber::Subscriber;
pub use update_connections::UpdateConnections;
