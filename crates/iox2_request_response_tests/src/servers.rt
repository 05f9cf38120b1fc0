ghost use Rattle.iox2_request_response.specs.Handles.{IsLiveClient, IsLivePending, IsLiveServer, IsPendingOf};
ghost use Rattle.iox2_request_response.specs.Service.{IsService, StaysService};

use crate::fixtures::{
    Service, active_of, client_of, close_both, next_request, next_response, ports_of, respond,
    response_with_origin, sent, serve, server_of,
};
use iox2_request_response::{
    ActiveRequest, Client, PendingResponse, RequestResponseConfig, Server,
};
use std::process::Abort;

// Of two servers each gets the request, and both respond.
#[test]
fn two_servers_respond_to_one_request(rt: HostRuntime) {
    let mut service = Service::new(rt.alloc(), &RequestResponseConfig::new(7)).expect(
        &rt,
        "a service",
    );
    let (mut client, one) = ports_of(&rt, rt.alloc(), &mut service);
    ask_two(&rt, &mut service, &one, &mut client);
    let left = close_both(client, one, &mut service);
    drop(service);
    assert!(rt; left == [0, 0, 0, 0]);
}

#[tactic(auto, using(iox2_request_response::proofs::Calling::calling, iox2_request_response::proofs::Calling::client_but_server))]
fn ask_two(rt: &impl Abort, service: &mut Service, one: &Server, client: &mut Client)
    requires service { IsService service.old }
    requires one { IsLiveServer service.old one.now }
    requires client { IsLiveClient service.old client.old }
    ensures client { IsLiveClient service.new client.new }
    ensures stays { StaysService service.old service.new }
{
    let two = server_of(rt, service);
    let pending = sent(rt, client, service, 5);
    assert!(rt; pending.number_of_server_connections() == 2);
    second_serves(rt, service, one, &two, &pending);
    read_both(rt, service, &pending);
    pending.close(client, service);
    two.close(service);
}

#[tactic(auto, using(iox2_request_response::proofs::Calling::calling, iox2_request_response::proofs::Ending::active_ends))]
fn second_serves(
    rt: &impl Abort,
    service: &mut Service,
    one: &Server,
    two: &Server,
    pending: &PendingResponse,
)
    requires service { IsService service.old }
    requires one { IsLiveServer service.old one.now }
    requires two { IsLiveServer service.old two.now }
    requires pending { IsLivePending service.old pending.now }
    ensures stays { StaysService service.old service.new }
{
    let at_two = active_of(rt, two, service);
    first_serves(rt, service, one, two, &at_two);
    assert!(rt; pending.is_connected(service));
    assert!(rt; at_two.is_connected(two, service));
    at_two.finish(two, service);
    assert!(rt; !pending.is_connected(service));
}

#[tactic(auto, using(iox2_request_response::proofs::Calling::calling, iox2_request_response::proofs::Ending::active_ends))]
fn first_serves(
    rt: &impl Abort,
    service: &mut Service,
    one: &Server,
    two: &Server,
    at_two: &ActiveRequest,
)
    requires service { IsService service.old }
    requires one { IsLiveServer service.old one.now }
    requires two { IsLiveServer service.old two.now }
    ensures stays { StaysService service.old service.new }
{
    let at_one = active_of(rt, one, service);
    assert!(rt; respond(rt, at_two, two, service, 2));
    assert!(rt; respond(rt, &at_one, one, service, 1));
    at_one.finish(one, service);
}

// The responses of both servers come, in any order, and no other. Each says who sent it.
fn read_both(rt: &impl Abort, service: &mut Service, pending: &PendingResponse)
    requires service { IsService service.old }
    requires pending { IsLivePending service.old pending.now }
    ensures stays { StaysService service.old service.new }
{
    let (first, its_server) = response_with_origin(rt, pending, service);
    let (second, other_server) = response_with_origin(rt, pending, service);
    assert!(rt; first == 1 && second == 2 || first == 2 && second == 1);
    assert!(rt; its_server != other_server);
    assert!(rt; next_response(rt, pending, service) == None);
}

// A server that comes after the request doesn't get it, nor can it respond; the next request reaches it.
#[test]
fn a_later_server_gets_later_requests(rt: HostRuntime) {
    let mut service = Service::new(rt.alloc(), &RequestResponseConfig::new(7)).expect(
        &rt,
        "a service",
    );
    let mut client = client_of(&rt, rt.alloc(), &mut service);
    let early = sent(&rt, &mut client, &mut service, 1);
    assert!(rt; early.number_of_server_connections() == 0 && !early.is_connected(&service));
    let server = server_of(&rt, &mut service);
    ask_later(&rt, &mut service, &server, &mut client, early);
    let left = close_both(client, server, &mut service);
    drop(service);
    assert!(rt; left == [0, 0, 0, 0]);
}

fn ask_later(
    rt: &impl Abort,
    service: &mut Service,
    server: &Server,
    client: &mut Client,
    early: PendingResponse,
)
    requires service { IsService service.old }
    requires server { IsLiveServer service.old server.now }
    requires client { IsLiveClient service.old client.old }
    requires early { IsLivePending service.old early }
    requires its { IsPendingOf client.old early }
    ensures client { IsLiveClient service.new client.new }
    ensures stays { StaysService service.old service.new }
{
    assert!(rt; next_request(rt, server, service) == None);
    assert!(rt; !early.is_connected(service));
    let late = sent(rt, client, service, 2);
    serve(rt, server, service, 2, [3].as_slice());
    assert!(rt; next_response(rt, &early, service) == None);
    assert!(rt; next_response(rt, &late, service) == Some(3));
    early.close(client, service);
    late.close(client, service);
}

// What a server sent before it was closed is received, and after that nobody is connected.
#[test]
fn a_closed_servers_responses_are_received(rt: HostRuntime) {
    let mut service = Service::new(rt.alloc(), &RequestResponseConfig::new(7)).expect(
        &rt,
        "a service",
    );
    let mut client = client_of(&rt, rt.alloc(), &mut service);
    let pending = serve_and_leave(&rt, &mut service, &mut client);
    assert!(rt; pending.is_connected(&service));
    assert!(rt; next_response(&rt, &pending, &mut service) == Some(10));
    assert!(rt; !pending.is_connected(&service));
    assert!(rt; next_response(&rt, &pending, &mut service) == None);
    pending.close(&mut client, &mut service);
    client.close(&mut service);
    let left = service.counts();
    drop(service);
    assert!(rt; left == [0, 0, 0, 0]);
}

#[tactic(auto, using(iox2_request_response::proofs::Calling::calling, iox2_request_response::proofs::Ending::active_is_new, iox2_request_response::proofs::Ending::active_ends, iox2_request_response::proofs::Calling::client_but_server, iox2_request_response::proofs::Calling::client_but_active, iox2_request_response::proofs::Ending::pending_but_server, iox2_request_response::proofs::Ending::pending_but_active, iox2_request_response::proofs::Ending::active_but_server))]
fn serve_and_leave(rt: &impl Abort, service: &mut Service, client: &mut Client) -> PendingResponse
    requires service { IsService service.old }
    requires client { IsLiveClient service.old client.old }
    ensures pending { IsLivePending service.new result }
    ensures its { IsPendingOf client.new result }
    ensures client { IsLiveClient service.new client.new }
    ensures stays { StaysService service.old service.new }
{
    let server = server_of(rt, service);
    let pending = sent(rt, client, service, 1);
    let active = active_of(rt, &server, service);
    assert!(rt; respond(rt, &active, &server, service, 10));
    server.close(service);
    active.abandon(service);
    pending
}
