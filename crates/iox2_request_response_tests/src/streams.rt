ghost use Rattle.iox2_request_response.specs.Handles.{HasIdleOf, HasPortsOf, IsLiveClient, IsLivePending, IsLiveServer};
ghost use Rattle.iox2_request_response.specs.Service.{IsService, StaysService};

use crate::fixtures::{
    Service, active_of, client_of, close_both, next_request, ports_of, receive_each, respond, sent,
};
use iox2_request_response::{
    ActiveRequest, Client, PendingResponse, RequestResponseConfig, Server,
};
use std::alloc::Global;
use std::process::Abort;

#[test]
fn two_requests_of_two_clients_get_streams_of_their_own(rt: HostRuntime) {
    let mut service = Service::new(rt.alloc(), &RequestResponseConfig::new(7)).expect(
        &rt,
        "a service",
    );
    let (mut first, server) = ports_of(&rt, rt.alloc(), &mut service);
    with_second(&rt, rt.alloc(), &mut service, &server, &mut first);
    let left = close_both(first, server, &mut service);
    drop(service);
    assert!(rt; left == [0, 0, 0, 0]);
}

fn with_second(
    rt: &impl Abort,
    alloc: Global,
    service: &mut Service,
    server: &Server,
    first: &mut Client,
)
    requires service { IsService service.old }
    requires server { IsLiveServer service.old server.now }
    requires first { IsLiveClient service.old first.old }
    ensures first { IsLiveClient service.new first.new }
    ensures stays { StaysService service.old service.new }
{
    let mut second = client_of(rt, alloc, service);
    ask_three(rt, service, server, first, &mut second);
    second.close(service);
}

fn ask_three(
    rt: &impl Abort,
    service: &mut Service,
    server: &Server,
    first: &mut Client,
    second: &mut Client,
)
    requires service { IsService service.old }
    requires server { IsLiveServer service.old server.now }
    requires first { IsLiveClient service.old first.old }
    requires second { IsLiveClient service.old second.old }
    ensures first { IsLiveClient service.new first.new }
    ensures first_idle { HasIdleOf first.old first.new }
    ensures first_ports { HasPortsOf first.old first.new }
    ensures second { IsLiveClient service.new second.new }
    ensures second_ports { HasPortsOf second.old second.new }
    ensures stays { StaysService service.old service.new }
{
    let a = sent(rt, first, service, 10);
    let c = sent(rt, first, service, 30);
    let b = sent(rt, second, service, 20);
    assert!(rt; a.number_of_server_connections() == 1);
    assert!(rt; b.number_of_server_connections() == 1);
    assert!(rt; c.number_of_server_connections() == 1);
    serve_first(rt, service, server, &a, &b, &c);
    assert!(rt; !a.is_connected(service) && !b.is_connected(service));
    a.close(first, service);
    b.close(second, service);
    c.close(first, service);
}

// The server takes the requests of one client first, in their order.
#[tactic(auto, using(iox2_request_response::proofs::Calling::calling, iox2_request_response::proofs::Ending::active_ends))]
fn serve_first(
    rt: &impl Abort,
    service: &mut Service,
    server: &Server,
    a: &PendingResponse,
    b: &PendingResponse,
    c: &PendingResponse,
)
    requires service { IsService service.old }
    requires server { IsLiveServer service.old server.now }
    requires a { IsLivePending service.old a.now }
    requires b { IsLivePending service.old b.now }
    requires c { IsLivePending service.old c.now }
    ensures stays { StaysService service.old service.new }
{
    let for_a = active_of(rt, server, service);
    assert!(rt; *for_a.payload(service) == 10);
    serve_second(rt, service, server, &for_a, a, b, c);
    for_a.finish(server, service);
}

#[tactic(auto, using(iox2_request_response::proofs::Calling::calling, iox2_request_response::proofs::Ending::active_ends))]
fn serve_second(
    rt: &impl Abort,
    service: &mut Service,
    server: &Server,
    for_a: &ActiveRequest,
    a: &PendingResponse,
    b: &PendingResponse,
    c: &PendingResponse,
)
    requires service { IsService service.old }
    requires server { IsLiveServer service.old server.now }
    requires a { IsLivePending service.old a.now }
    requires b { IsLivePending service.old b.now }
    requires c { IsLivePending service.old c.now }
    ensures stays { StaysService service.old service.new }
{
    let for_c = active_of(rt, server, service);
    assert!(rt; *for_c.payload(service) == 30);
    serve_third(rt, service, server, for_a, &for_c, a, b, c);
    for_c.finish(server, service);
}

#[tactic(auto, using(iox2_request_response::proofs::Calling::calling, iox2_request_response::proofs::Ending::active_ends))]
fn serve_third(
    rt: &impl Abort,
    service: &mut Service,
    server: &Server,
    for_a: &ActiveRequest,
    for_c: &ActiveRequest,
    a: &PendingResponse,
    b: &PendingResponse,
    c: &PendingResponse,
)
    requires service { IsService service.old }
    requires server { IsLiveServer service.old server.now }
    requires a { IsLivePending service.old a.now }
    requires b { IsLivePending service.old b.now }
    requires c { IsLivePending service.old c.now }
    ensures stays { StaysService service.old service.new }
{
    let for_b = active_of(rt, server, service);
    assert!(rt; *for_b.payload(service) == 20);
    assert!(rt; for_a.origin() == for_c.origin());
    assert!(rt; for_a.origin() != for_b.origin());
    assert!(rt; next_request(rt, server, service) == None);
    respond_to_all(rt, service, server, for_a, &for_b, for_c);
    read_all(rt, service, a, b, c);
    for_b.finish(server, service);
}

// Responses are sent in another order than the requests.
fn respond_to_all(
    rt: &impl Abort,
    service: &mut Service,
    server: &Server,
    for_a: &ActiveRequest,
    for_b: &ActiveRequest,
    for_c: &ActiveRequest,
)
    requires service { IsService service.old }
    requires server { IsLiveServer service.old server.now }
    ensures stays { StaysService service.old service.new }
{
    assert!(rt; respond(rt, for_c, server, service, 31));
    assert!(rt; respond(rt, for_a, server, service, 11));
    assert!(rt; respond(rt, for_b, server, service, 21));
    assert!(rt; respond(rt, for_a, server, service, 12));
    assert!(rt; respond(rt, for_c, server, service, 32));
}

// Each request has its own responses, in their order.
fn read_all(
    rt: &impl Abort,
    service: &mut Service,
    a: &PendingResponse,
    b: &PendingResponse,
    c: &PendingResponse,
)
    requires service { IsService service.old }
    requires a { IsLivePending service.old a.now }
    requires b { IsLivePending service.old b.now }
    requires c { IsLivePending service.old c.now }
    ensures stays { StaysService service.old service.new }
{
    receive_each(rt, a, service, [11, 12].as_slice());
    receive_each(rt, b, service, [21].as_slice());
    receive_each(rt, c, service, [31, 32].as_slice());
}
