use iox2_fixtures::{Weather, settings};
use iox2_machine::{ServiceConfig, TypeVariant};
use iox2_pubsub::Domain;

// Any numbers may name the service and the node, of messages of either kind.
#[test]
fn a_new_domain_has_its_settings(rt: HostRuntime) {
    for (service_id, node_id, variant) in [
        (7, 3, TypeVariant::FixedSize),
        (0, u128::MAX, TypeVariant::Dynamic),
        (u128::MAX, 1 << 64, TypeVariant::FixedSize),
    ] {
        let config = ServiceConfig {
            service_id,
            node_id,
            variant,
            ..settings()
        };
        let made: Result<Weather, _> = Domain::new(rt.alloc(), config);
        let domain = made.expect(&rt, "a domain");
        let is_alike = *domain.config() == config;
        let is_of_its_kind = domain.variant() == variant;
        drop(domain);
        assert!(rt; is_alike && is_of_its_kind);
    }
}
