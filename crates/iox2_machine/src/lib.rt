//! The machine (`specs/machine`), which says what the library means, and the plain types that it
//! uses: ids, headers, settings, answers of handlers, errors and warnings.
#![tactic(auto)]

mod allocation;
mod backpressure;
mod backpressure_handler;
mod degradation;
mod degradation_handler;
mod errors;
mod header;
mod ids;
mod key;
mod service_config;
mod warning;
mod worst_case;

pub use allocation::{AllocationStrategy, DataSegmentType};
pub use backpressure::{
    BackpressureAction, BackpressureFn, BackpressureInfo, BackpressureStrategy,
    BackpressureToReceiverAction,
};
pub use backpressure_handler::BackpressureHandler;
pub use degradation::{DegradationAction, DegradationCause, DegradationFn, DegradationInfo};
pub use degradation_handler::DegradationHandler;
pub use errors::{
    ConnectionFailure, DomainCreateError, LoanError, PublisherCreateError, ReceiveError, SendError,
    SharedMemoryOpenError, SubscriberCreateError, ZeroCopyCreationError,
};
pub use header::Header;
pub use ids::{UniqueNodeId, UniquePublisherId, UniqueSubscriberId};
pub use key::Key;
pub use service_config::{ServiceConfig, TypeVariant};
pub use warning::Warning;
pub use worst_case::worst_case_slots;
