use crate::fixtures::Service;
use iox2_pubsub::DomainCreateError;
use iox2_request_response::RequestResponseConfig;

// No two numbers are the same, so that two which are exchanged are seen.
#[test]
fn each_setting_goes_to_its_domain(rt: HostRuntime) {
    let config = RequestResponseConfig {
        service_id: 7,
        max_clients: 3,
        max_servers: 5,
        max_active_requests_per_client: 4,
        max_response_buffer_size: 6,
        max_borrowed_responses_per_pending_response: 8,
        enable_safe_overflow_for_requests: false,
        enable_safe_overflow_for_responses: true,
    };
    let service = Service::with_handlers(rt.alloc(), &config).expect(&rt, "a service");
    let (requests, responses) = service.configs();
    assert!(rt; requests.service_id == 7 && responses.service_id == 7);
    assert!(rt; requests.max_publishers == 3 && responses.max_publishers == 5);
    assert!(rt; requests.max_subscribers == 5 && responses.max_subscribers == 12);
    assert!(rt; requests.subscriber_max_buffer_size == 4);
    assert!(rt; responses.subscriber_max_buffer_size == 6);
    assert!(rt; requests.subscriber_max_borrowed_samples == 4);
    assert!(rt; responses.subscriber_max_borrowed_samples == 8);
    assert!(rt; !requests.enable_safe_overflow && responses.enable_safe_overflow);
    drop(service);
}

#[test]
fn defaults_are_those_of_iceoryx2(rt: HostRuntime) {
    let expected = RequestResponseConfig {
        service_id: 7,
        max_clients: 8,
        max_servers: 2,
        max_active_requests_per_client: 4,
        max_response_buffer_size: 2,
        max_borrowed_responses_per_pending_response: 2,
        enable_safe_overflow_for_requests: true,
        enable_safe_overflow_for_responses: true,
    };
    assert!(rt; RequestResponseConfig::new(7) == expected);
}

// There are no more subscribers of responses than a `usize` counts.
#[test]
fn a_service_with_too_many_requests_is_refused(rt: HostRuntime) {
    let config = RequestResponseConfig {
        max_clients: usize::MAX,
        ..RequestResponseConfig::new(7)
    };
    let refused = match Service::new(rt.alloc(), &config) {
        Ok(service) => {
            drop(service);
            false
        }
        Err(error) => error == DomainCreateError::OutOfMemory,
    };
    assert!(rt; refused);
}
