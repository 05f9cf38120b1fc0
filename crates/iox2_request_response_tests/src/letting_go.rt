ghost use Rattle.iox2_request_response.specs.Handles.{IsLiveClient, IsLivePending, IsLiveServer, IsPendingOf};
ghost use Rattle.iox2_request_response.specs.Service.{IsService, StaysService};
ghost use Rattle.iox2_request_response.specs.declared.pending_response.PendingResponse.{PendingResponse as Pending};

use crate::fixtures::{
    Service, active_of, close_both, next_response, ports_of, respond, sent, serve,
};
use iox2_request_response::{
    ActiveRequest, Client, PendingResponse, RequestResponseConfig, RequestSendError, Server,
};
use std::process::Abort;

#[test]
fn a_request_that_is_let_go_is_seen_and_its_place_is_used_again(rt: HostRuntime) {
    let config = RequestResponseConfig {
        max_active_requests_per_client: 1,
        ..RequestResponseConfig::new(7)
    };
    let mut service = Service::new(rt.alloc(), &config).expect(&rt, "a service");
    let (mut client, server) = ports_of(&rt, rt.alloc(), &mut service);
    for round in 0..20u64 {
        ask_and_let_go(&rt, &mut service, &server, &mut client, round);
    }
    let left = close_both(client, server, &mut service);
    drop(service);
    assert!(rt; left == [0, 0, 0, 0]);
}

// The only place of the client is in use, then it is given back.
fn ask_and_let_go(
    rt: &impl Abort,
    service: &mut Service,
    server: &Server,
    client: &mut Client,
    value: u64,
)
    requires service { IsService service.old }
    requires server { IsLiveServer service.old server.now }
    requires client { IsLiveClient service.old client.old }
    ensures client { IsLiveClient service.new client.new }
    ensures stays { StaysService service.old service.new }
{
    let pending = sent(rt, client, service, value);
    assert!(rt; is_refused(client, service));
    let_go(rt, service, server, client, pending, value);
}

// Whether the client is refused a request for its limit.
#[tactic(auto, using(iox2_request_response::proofs::Calling::calling, iox2_request_response::proofs::Ending::apart_back))]
fn is_refused(client: &mut Client, service: &mut Service) -> bool
    requires service { IsService service.old }
    requires client { IsLiveClient service.old client.old }
    ensures others { (other : Pending) → IsPendingOf client.old other → IsPendingOf client.new other }
    ensures client { IsLiveClient service.new client.new }
    ensures stays { StaysService service.old service.new }
{
    match client.send_copy(service, 99) {
        Ok(other) => {
            other.close(client, service);
            false
        }
        Err(error) => error == RequestSendError::ExceedsMaxActiveRequests,
    }
}

// The request is let go while its server has it, and the client sends the next one.
#[tactic(auto, using(iox2_request_response::proofs::Calling::calling, iox2_request_response::proofs::Ending::active_ends, iox2_request_response::proofs::Calling::client_but_active, iox2_request_response::proofs::Ending::pending_but_active))]
fn let_go(
    rt: &impl Abort,
    service: &mut Service,
    server: &Server,
    client: &mut Client,
    pending: PendingResponse,
    value: u64,
)
    requires service { IsService service.old }
    requires server { IsLiveServer service.old server.now }
    requires client { IsLiveClient service.old client.old }
    requires pending { IsLivePending service.old pending }
    requires its { IsPendingOf client.old pending }
    ensures client { IsLiveClient service.new client.new }
    ensures stays { StaysService service.old service.new }
{
    let active = active_of(rt, server, service);
    hint_and_respond(rt, service, server, &pending, &active, value);
    pending.close(client, service);
    let next = ask_again(rt, service, server, client, &active, value);
    active.finish(server, service);
    assert!(rt; next.is_connected(service));
    serve(
        rt,
        server,
        service,
        value,
        [value.wrapping_add(100)].as_slice(),
    );
    assert!(rt; next_response(rt, &next, service) == Some(value.wrapping_add(100)));
    next.close(client, service);
}

// The server sees the hint. Its response is lost by the close.
fn hint_and_respond(
    rt: &impl Abort,
    service: &mut Service,
    server: &Server,
    pending: &PendingResponse,
    active: &ActiveRequest,
    value: u64,
)
    requires service { IsService service.old }
    requires server { IsLiveServer service.old server.now }
    requires pending { IsLivePending service.old pending.now }
    ensures stays { StaysService service.old service.new }
{
    assert!(rt; active.is_connected(server, service) && pending.is_connected(service));
    assert!(rt; !active.has_disconnect_hint(server, service));
    pending.set_disconnect_hint(service);
    assert!(rt; active.has_disconnect_hint(server, service));
    assert!(rt; respond(rt, active, server, service, value));
}

// The old request's server sees that it was let go. It reaches neither that request nor the next one.
fn ask_again(
    rt: &impl Abort,
    service: &mut Service,
    server: &Server,
    client: &mut Client,
    active: &ActiveRequest,
    value: u64,
) -> PendingResponse
    requires service { IsService service.old }
    requires server { IsLiveServer service.old server.now }
    requires client { IsLiveClient service.old client.old }
    ensures client { IsLiveClient service.new client.new }
    ensures pending { IsLivePending service.new result }
    ensures its { IsPendingOf client.new result }
    ensures stays { StaysService service.old service.new }
{
    assert!(rt; !active.is_connected(server, service));
    assert!(rt; !respond(rt, active, server, service, value));
    let next = sent(rt, client, service, value);
    assert!(rt; !respond(rt, active, server, service, 77));
    next
}
