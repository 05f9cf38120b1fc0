//! Messages that are slices: the same ports, loans and samples, with other calls to lend, and another
//! view of their payload.
mod port_factory;
mod publisher;
mod sample;
mod sample_mut;
mod sample_mut_uninit;
mod subscriber;
mod views;

pub use port_factory::{PortFactoryPublisher, PortFactorySubscriber};
pub use publisher::{LocatedLoan, Publisher};
pub use sample::Sample;
pub use sample_mut::SampleMut;
pub use sample_mut_uninit::SampleMutUninit;
pub use subscriber::Subscriber;
