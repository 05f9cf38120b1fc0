ghost use Rattle.iox2_request_response.specs.Handles.{IsLiveActive, IsLiveClient, IsLiveServer};
ghost use Rattle.iox2_request_response.specs.Service.{IsService, StaysService};

use crate::fixtures::{
    Service, active_of, client_of, close_both, next_response, respond, sent, serve, server_of,
};
use iox2_request_response::{ActiveRequest, Client, RequestResponseConfig, Server};
use std::alloc::Global;
use std::process::Abort;

// A client that comes at the place of a closed one, and whose request comes into the same channel, isn't
// reached by responses to the closed one's request.
#[test]
fn a_client_at_the_same_place_gets_no_response_of_the_one_before(rt: HostRuntime) {
    let config = RequestResponseConfig {
        max_clients: 1,
        max_active_requests_per_client: 1,
        ..RequestResponseConfig::new(7)
    };
    let mut service = Service::new(rt.alloc(), &config).expect(&rt, "a service");
    let server = server_of(&rt, &mut service);
    let active = leave_a_request(&rt, rt.alloc(), &mut service, &server);
    let mut after = client_of(&rt, rt.alloc(), &mut service);
    ask_at_the_same_place(&rt, &mut service, &server, &mut after, active);
    let left = close_both(after, server, &mut service);
    drop(service);
    assert!(rt; left == [0, 0, 0, 0]);
}

// The request of a client that is closed. While it may still be waited for, its server sees it connected.
#[tactic(auto, using(iox2_request_response::proofs::Calling::calling, iox2_request_response::proofs::Ending::pending_but_client, iox2_request_response::proofs::Ending::active_but_pending, iox2_request_response::proofs::Ending::server_but_pending, iox2_request_response::proofs::Ending::service_but))]
fn leave_a_request(
    rt: &impl Abort,
    alloc: Global,
    service: &mut Service,
    server: &Server,
) -> ActiveRequest
    requires service { IsService service.old }
    requires server { IsLiveServer service.old server.now }
    ensures active { IsLiveActive service.new result }
    ensures server { IsLiveServer service.new server.now }
    ensures service { IsService service.new }
{
    let mut before = client_of(rt, alloc, service);
    let old = sent(rt, &mut before, service, 1);
    let active = active_of(rt, server, service);
    before.close(service);
    assert!(rt; active.is_connected(server, service));
    old.abandon(service);
    assert!(rt; !active.is_connected(server, service));
    active
}

#[tactic(auto, using(iox2_request_response::proofs::Calling::calling, iox2_request_response::proofs::Calling::client_but_active, iox2_request_response::proofs::Ending::pending_but_active, iox2_request_response::proofs::Ending::server_but_active, iox2_request_response::proofs::Ending::service_but))]
fn ask_at_the_same_place(
    rt: &impl Abort,
    service: &mut Service,
    server: &Server,
    client: &mut Client,
    active: ActiveRequest,
)
    requires service { IsService service.old }
    requires server { IsLiveServer service.old server.now }
    requires client { IsLiveClient service.old client.old }
    requires active { IsLiveActive service.old active }
    ensures client { IsLiveClient service.new client.new }
    ensures server { IsLiveServer service.new server.now }
{
    let new = sent(rt, client, service, 2);
    assert!(rt; !respond(rt, &active, server, service, 10));
    assert!(rt; next_response(rt, &new, service) == None);
    active.finish(server, service);
    assert!(rt; new.is_connected(service));
    serve(rt, server, service, 2, [20].as_slice());
    assert!(rt; next_response(rt, &new, service) == Some(20));
    new.close(client, service);
}
