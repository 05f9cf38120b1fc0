ghost use Rattle.iox2_request_response.specs.Handles.{IsLiveClient, IsLivePending, IsLiveServer};
ghost use Rattle.iox2_request_response.specs.Service.{IsService, StaysService};

use crate::fixtures::{Service, close_both, next_response, ports_of, sent, serve};
use iox2_request_response::{Client, PendingResponse, RequestResponseConfig, Server};
use std::process::Abort;

// A server is told of a request that waits, and a client of a response, until it is received.
#[test]
fn what_waits_is_told_until_it_is_received(rt: HostRuntime) {
    let mut service = Service::new(rt.alloc(), &RequestResponseConfig::new(7)).expect(
        &rt,
        "a service",
    );
    let (mut client, server) = ports_of(&rt, rt.alloc(), &mut service);
    ask(&rt, &mut service, &server, &mut client);
    let left = close_both(client, server, &mut service);
    drop(service);
    assert!(rt; left == [0, 0, 0, 0]);
}

fn ask(rt: &impl Abort, service: &mut Service, server: &Server, client: &mut Client)
    requires service { IsService service.old }
    requires server { IsLiveServer service.old server.now }
    requires client { IsLiveClient service.old client.old }
    ensures client { IsLiveClient service.new client.new }
    ensures stays { StaysService service.old service.new }
{
    assert!(rt; !has_requests(rt, server, service));
    let pending = sent(rt, client, service, 1);
    respond_to_what_waits(rt, service, server, &pending);
    receive_what_waits(rt, service, &pending);
    pending.close(client, service);
}

fn respond_to_what_waits(
    rt: &impl Abort,
    service: &mut Service,
    server: &Server,
    pending: &PendingResponse,
)
    requires service { IsService service.old }
    requires server { IsLiveServer service.old server.now }
    requires pending { IsLivePending service.old pending.now }
    ensures stays { StaysService service.old service.new }
{
    assert!(rt; has_requests(rt, server, service));
    assert!(rt; !has_response(rt, pending, service));
    serve(rt, server, service, 1, [10].as_slice());
    assert!(rt; !has_requests(rt, server, service));
}

fn receive_what_waits(rt: &impl Abort, service: &mut Service, pending: &PendingResponse)
    requires service { IsService service.old }
    requires pending { IsLivePending service.old pending.now }
    ensures stays { StaysService service.old service.new }
{
    assert!(rt; has_response(rt, pending, service));
    assert!(rt; next_response(rt, pending, service) == Some(10));
    assert!(rt; !has_response(rt, pending, service));
}

fn has_requests(rt: &impl Abort, server: &Server, service: &mut Service) -> bool
    requires server { IsLiveServer service.old server.now }
    ensures stays { StaysService service.old service.new }
{
    server.has_requests(service).expect(rt, "an answer")
}

fn has_response(rt: &impl Abort, pending: &PendingResponse, service: &mut Service) -> bool
    requires pending { IsLivePending service.old pending.now }
    ensures stays { StaysService service.old service.new }
{
    pending.has_response(service).expect(rt, "an answer")
}
