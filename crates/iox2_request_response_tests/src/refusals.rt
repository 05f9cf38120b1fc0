ghost use Rattle.iox2_request_response.specs.Handles.{IsLiveClient, IsLiveServer};
ghost use Rattle.iox2_request_response.specs.Service.{IsService, StaysService};

use crate::fixtures::{Service, active_of, close_both, next_request, ports_of, sent};
use iox2_pubsub::{PublisherCreateError, ReceiveError, SubscriberCreateError};
use iox2_request_response::{
    Client, ClientCreateError, RequestResponseConfig, Server, ServerCreateError,
};
use std::alloc::Global;
use std::process::Abort;

#[test]
fn a_client_or_a_server_too_many_is_refused(rt: HostRuntime) {
    let config = RequestResponseConfig {
        max_clients: 1,
        max_servers: 1,
        ..RequestResponseConfig::new(7)
    };
    let mut service = Service::new(rt.alloc(), &config).expect(&rt, "a service");
    let (client, server) = ports_of(&rt, rt.alloc(), &mut service);
    let refused = ports_are_refused(rt.alloc(), &mut service);
    let left = close_both(client, server, &mut service);
    drop(service);
    assert!(rt; refused == (true, true));
    assert!(rt; left == [0, 0, 0, 0]);
}

fn ports_are_refused(alloc: Global, service: &mut Service) -> (bool, bool)
    requires service { IsService service.old }
    ensures stays { StaysService service.old service.new }
{
    let client = client_is_refused(alloc, service);
    let server = server_is_refused(service);
    (client, server)
}

fn client_is_refused(alloc: Global, service: &mut Service) -> bool
    requires service { IsService service.old }
    ensures stays { StaysService service.old service.new }
{
    match service.create_client(alloc) {
        Ok(client) => {
            client.close(service);
            false
        }
        Err(error) => {
            error
                == ClientCreateError::Requests(PublisherCreateError::ExceedsMaxSupportedPublishers)
        }
    }
}

fn server_is_refused(service: &mut Service) -> bool
    requires service { IsService service.old }
    ensures stays { StaysService service.old service.new }
{
    match service.create_server() {
        Ok(server) => {
            server.close(service);
            false
        }
        Err(error) => {
            error
                == ServerCreateError::Requests(
                    SubscriberCreateError::ExceedsMaxSupportedSubscribers,
                )
        }
    }
}

// A server that holds as many requests of a client as it may gets the next one once it has finished one.
#[test]
fn a_server_that_holds_all_that_it_may_is_refused_a_request(rt: HostRuntime) {
    let config = RequestResponseConfig {
        max_active_requests_per_client: 1,
        ..RequestResponseConfig::new(7)
    };
    let mut service = Service::new(rt.alloc(), &config).expect(&rt, "a service");
    let (mut client, server) = ports_of(&rt, rt.alloc(), &mut service);
    hold_and_ask(&rt, &mut service, &server, &mut client);
    let left = close_both(client, server, &mut service);
    drop(service);
    assert!(rt; left == [0, 0, 0, 0]);
}

// The request that the server holds was let go, so that its client may send another.
#[tactic(auto, using(iox2_request_response::proofs::Calling::calling, iox2_request_response::proofs::Ending::active_ends))]
fn hold_and_ask(rt: &impl Abort, service: &mut Service, server: &Server, client: &mut Client)
    requires service { IsService service.old }
    requires server { IsLiveServer service.old server.now }
    requires client { IsLiveClient service.old client.old }
    ensures client { IsLiveClient service.new client.new }
    ensures stays { StaysService service.old service.new }
{
    let first = sent(rt, client, service, 1);
    let held = active_of(rt, server, service);
    first.close(client, service);
    let second = sent(rt, client, service, 2);
    assert!(rt; request_is_refused(server, service));
    held.finish(server, service);
    assert!(rt; next_request(rt, server, service) == Some(2));
    second.close(client, service);
}

#[tactic(auto, using(iox2_request_response::proofs::Calling::calling, iox2_request_response::proofs::Ending::active_ends))]
fn request_is_refused(server: &Server, service: &mut Service) -> bool
    requires server { IsLiveServer service.old server.now }
    ensures stays { StaysService service.old service.new }
{
    match server.receive(service) {
        Ok(Some(active)) => {
            active.finish(server, service);
            false
        }
        Ok(None) => false,
        Err(error) => error == ReceiveError::ExceedsMaxBorrows,
    }
}
