//! Many ports are made, connected, updated and closed.
ghost use Rattle.std.specs.Prelude.{◌≡◌, All, IfSome};
ghost use Rattle.iox2_pubsub.specs.Live.{IsLivePublisher, IsLiveSubscriber, IsSingleValued, Stays};

use crate::closing::{close_publishers, close_subscribers, create_senders, send_all, update_all};
use crate::ports::create_receivers;
use crate::receiver::Receiver;
use crate::sender::Sender;
use iox2_pubsub::{Domain, ServiceConfig, TypeVariant, UpdateConnections};
use std::alloc::Global;

/// Which ports are made.
#[repr(C)]
pub struct Connecting {
    /// How many publishers there are.
    pub publishers: usize,
    /// How many subscribers there are.
    pub subscribers: usize,
    /// How many messages each publisher sends. It keeps them for subscribers that come later.
    pub history: usize,
    /// Whether the publishers are made first, and send before there are subscribers. Else each
    /// message goes to all of these.
    pub publishers_first: bool,
}

impl Connecting {
    /// The settings of a domain that takes these ports and messages.
    pub fn config(&self) -> ServiceConfig
        ensures variant { result.variant ≡ TypeVariant.FixedSize }
        ensures units { result.units_per_element ≡ 1 }
    {
        ServiceConfig {
            max_publishers: self.publishers,
            max_subscribers: self.subscribers,
            subscriber_max_buffer_size: self.history,
            subscriber_max_borrowed_samples: 1,
            history_size: self.history,
            subscriber_expired_connection_buffer: self.publishers,
            publisher_max_loaned_samples: 1,
            enable_safe_overflow: false,
            ..ServiceConfig::new(1)
        }
    }
}

/// Makes the ports, updates them, and closes them: the publishers first, so that subscribers are
/// updated once more where messages wait. Returns how many were closed. `None` where something is
/// refused.
pub fn connect_all(alloc: Global, connecting: &Connecting) -> Option<usize> {
    let mut domain = Domain::<u64, ()>::new(alloc, connecting.config()).ok()?;
    connect_all_in(alloc, &mut domain, connecting)
}

// The same in a domain that takes these ports and messages.
fn connect_all_in(
    alloc: Global,
    domain: &mut Domain<u64, ()>,
    connecting: &Connecting,
) -> Option<usize>
    requires { IsSingleValued domain.old }
{
    let (senders, receivers) = make_ports(alloc, domain, connecting)?;
    update_senders(domain, &senders)?;
    update_all(domain, &receivers)?;
    let closed = close_publishers(domain, senders);
    update_open(domain, &receivers);
    Some(closed.saturating_add(close_subscribers(domain, receivers)))
}

// Makes the ports, and has the publishers send. `None` where something is refused.
fn make_ports(
    alloc: Global,
    domain: &mut Domain<u64, ()>,
    connecting: &Connecting,
) -> Option<(Vec<Sender>, Vec<Receiver>)>
    requires { IsSingleValued domain.old }
    ensures senders { IfSome result (λ ports. All (λ sender. IsLivePublisher domain.new sender.publisher) ports.0.items) }
    ensures receivers { IfSome result (λ ports. All (λ receiver. IsLiveSubscriber domain.new receiver.subscriber) ports.1.items) }
{
    if connecting.publishers_first {
        let senders = create_senders(alloc, domain, connecting.publishers)?;
        send_all(domain, &senders, connecting.history)?;
        let receivers = create_receivers(alloc, domain, connecting.subscribers)?;
        Some((senders, receivers))
    } else {
        let receivers = create_receivers(alloc, domain, connecting.subscribers)?;
        let senders = create_senders(alloc, domain, connecting.publishers)?;
        send_all(domain, &senders, connecting.history)?;
        Some((senders, receivers))
    }
}

// Each publisher gets to know the subscribers. `None` where an update is refused.
fn update_senders(domain: &mut Domain<u64, ()>, senders: &[Sender]) -> Option<()>
    requires senders { All (λ sender. IsLivePublisher domain.old sender.publisher) senders.now }
    ensures { Stays domain.old domain.new }
{
    for sender in senders {
        sender.publisher.update_connections(domain).ok()?;
    }
    Some(())
}

// Updates the subscribers that are live, whatever comes of it.
fn update_open(domain: &mut Domain<u64, ()>, receivers: &[Receiver]) {
    for receiver in receivers {
        if receiver.subscriber.is_in(domain) {
            let _ = receiver.subscriber.update_connections(domain);
        }
    }
}
