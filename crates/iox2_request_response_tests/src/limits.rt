ghost use Rattle.iox2_request_response.specs.Handles.{HasIdleOf, HasPortsOf, IsLiveClient, IsLivePending, IsLiveServer, IsPendingOf};
ghost use Rattle.iox2_request_response.specs.Service.{IsService, StaysService};
ghost use Rattle.iox2_request_response.specs.declared.pending_response.PendingResponse.{PendingResponse as Pending};

use crate::fixtures::{
    Service, active_of, client_of, close_both, ports_of, respond, response_of, sent,
};
use iox2_pubsub::{BackpressureFn, DegradationFn};
use iox2_request_response::{
    ActiveRequest, Client, PendingResponse, RequestResponse, RequestResponseConfig, Server,
};
use std::alloc::Global;
use std::process::Abort;

// Where everything that may wait or be borrowed is, a server still lends; and no request below the limit is refused.
#[test]
fn all_that_may_be_held_leaves_a_loan(rt: HostRuntime) {
    let config = RequestResponseConfig {
        max_clients: 2,
        max_servers: 1,
        max_active_requests_per_client: 2,
        max_response_buffer_size: 2,
        max_borrowed_responses_per_pending_response: 2,
        enable_safe_overflow_for_responses: false,
        ..RequestResponseConfig::new(7)
    };
    let mut service = Service::new(rt.alloc(), &config).expect(&rt, "a service");
    let (mut first, server) = ports_of(&rt, rt.alloc(), &mut service);
    with_second(&rt, rt.alloc(), &mut service, &server, &mut first);
    let left = close_both(first, server, &mut service);
    drop(service);
    assert!(rt; left == [0, 0, 0, 0]);
}

fn with_second(
    rt: &impl Abort,
    alloc: Global,
    service: &mut Service,
    server: &Server,
    first: &mut Client,
)
    requires service { IsService service.old }
    requires server { IsLiveServer service.old server.now }
    requires first { IsLiveClient service.old first.old }
    ensures first { IsLiveClient service.new first.new }
    ensures stays { StaysService service.old service.new }
{
    let mut second = client_of(rt, alloc, service);
    ask_and_hold(rt, service, server, first, &mut second, 4);
    second.close(service);
}

// Each client in turn sends a request, of so many in all, and everything that each may hold is held while
// the later ones are sent.
#[cycle(holding)]
fn ask_and_hold<R: Abort, F: BackpressureFn, G: DegradationFn>(
    rt: &R,
    service: &mut RequestResponse<u64, u64, F, G>,
    server: &Server,
    first: &mut Client,
    second: &mut Client,
    requests: usize,
)
    requires service { IsService service.old }
    requires server { IsLiveServer service.old server.now }
    requires first { IsLiveClient service.old first.old }
    requires second { IsLiveClient service.old second.old }
    ensures first { IsLiveClient service.new first.new }
    ensures first_others { (other : Pending) → IsPendingOf first.old other → IsPendingOf first.new other }
    ensures first_ports { HasPortsOf first.old first.new }
    ensures first_idle { HasIdleOf first.old first.new }
    ensures second { IsLiveClient service.new second.new }
    ensures second_others { (other : Pending) → IsPendingOf second.old other → IsPendingOf second.new other }
    ensures second_ports { HasPortsOf second.old second.new }
    ensures second_idle { HasIdleOf second.old second.new }
    ensures stays { StaysService service.old service.new }
{
    if requests == 0 {
        return;
    }
    let pending = sent(rt, first, service, 1);
    serve_and_hold(rt, service, server, first, second, requests - 1, &pending);
    pending.close(first, service);
}

#[tactic(auto, using(iox2_request_response::proofs::Calling::calling, iox2_request_response::proofs::Ending::active_ends, iox2_request_response::proofs::Calling::client_but_active))]
#[cycle(holding)]
fn serve_and_hold<R: Abort, F: BackpressureFn, G: DegradationFn>(
    rt: &R,
    service: &mut RequestResponse<u64, u64, F, G>,
    server: &Server,
    first: &mut Client,
    second: &mut Client,
    requests: usize,
    pending: &PendingResponse,
)
    requires service { IsService service.old }
    requires server { IsLiveServer service.old server.now }
    requires first { IsLiveClient service.old first.old }
    requires second { IsLiveClient service.old second.old }
    requires pending { IsLivePending service.old pending.now }
    ensures first { IsLiveClient service.new first.new }
    ensures first_others { (other : Pending) → IsPendingOf first.old other → IsPendingOf first.new other }
    ensures first_ports { HasPortsOf first.old first.new }
    ensures first_idle { HasIdleOf first.old first.new }
    ensures second { IsLiveClient service.new second.new }
    ensures second_others { (other : Pending) → IsPendingOf second.old other → IsPendingOf second.new other }
    ensures second_ports { HasPortsOf second.old second.new }
    ensures second_idle { HasIdleOf second.old second.new }
    ensures stays { StaysService service.old service.new }
{
    let active = active_of(rt, server, service);
    respond_twice(rt, service, server, &active);
    hold_one(
        rt, service, server, first, second, requests, pending, &active,
    );
    active.finish(server, service);
}

#[tactic(auto, using(iox2_request_response::proofs::Calling::calling, iox2_request_response::proofs::Ending::response_ends, iox2_request_response::proofs::Calling::client_but_response))]
#[cycle(holding)]
fn hold_one<R: Abort, F: BackpressureFn, G: DegradationFn>(
    rt: &R,
    service: &mut RequestResponse<u64, u64, F, G>,
    server: &Server,
    first: &mut Client,
    second: &mut Client,
    requests: usize,
    pending: &PendingResponse,
    active: &ActiveRequest,
)
    requires service { IsService service.old }
    requires server { IsLiveServer service.old server.now }
    requires first { IsLiveClient service.old first.old }
    requires second { IsLiveClient service.old second.old }
    requires pending { IsLivePending service.old pending.now }
    ensures first { IsLiveClient service.new first.new }
    ensures first_others { (other : Pending) → IsPendingOf first.old other → IsPendingOf first.new other }
    ensures first_ports { HasPortsOf first.old first.new }
    ensures first_idle { HasIdleOf first.old first.new }
    ensures second { IsLiveClient service.new second.new }
    ensures second_others { (other : Pending) → IsPendingOf second.old other → IsPendingOf second.new other }
    ensures second_ports { HasPortsOf second.old second.new }
    ensures second_idle { HasIdleOf second.old second.new }
    ensures stays { StaysService service.old service.new }
{
    let held = response_of(rt, pending, service);
    hold_both(
        rt, service, server, first, second, requests, pending, active,
    );
    held.release(service);
}

// Two responses are borrowed and two more wait, so no other is taken, now or after the other requests.
#[tactic(auto, using(iox2_request_response::proofs::Calling::calling, iox2_request_response::proofs::Ending::response_ends, iox2_request_response::proofs::Calling::client_but_response))]
#[cycle(holding)]
fn hold_both<R: Abort, F: BackpressureFn, G: DegradationFn>(
    rt: &R,
    service: &mut RequestResponse<u64, u64, F, G>,
    server: &Server,
    first: &mut Client,
    second: &mut Client,
    requests: usize,
    pending: &PendingResponse,
    active: &ActiveRequest,
)
    requires service { IsService service.old }
    requires server { IsLiveServer service.old server.now }
    requires first { IsLiveClient service.old first.old }
    requires second { IsLiveClient service.old second.old }
    requires pending { IsLivePending service.old pending.now }
    ensures first { IsLiveClient service.new first.new }
    ensures first_others { (other : Pending) → IsPendingOf first.old other → IsPendingOf first.new other }
    ensures first_ports { HasPortsOf first.old first.new }
    ensures first_idle { HasIdleOf first.old first.new }
    ensures second { IsLiveClient service.new second.new }
    ensures second_others { (other : Pending) → IsPendingOf second.old other → IsPendingOf second.new other }
    ensures second_ports { HasPortsOf second.old second.new }
    ensures second_idle { HasIdleOf second.old second.new }
    ensures stays { StaysService service.old service.new }
{
    let held = response_of(rt, pending, service);
    fill(rt, service, server, active);
    ask_and_hold(rt, service, server, second, first, requests);
    assert!(rt; !respond(rt, active, server, service, 9));
    held.release(service);
}

fn fill<R: Abort, F: BackpressureFn, G: DegradationFn>(
    rt: &R,
    service: &mut RequestResponse<u64, u64, F, G>,
    server: &Server,
    active: &ActiveRequest,
)
    requires service { IsService service.old }
    requires server { IsLiveServer service.old server.now }
    ensures stays { StaysService service.old service.new }
{
    respond_twice(rt, service, server, active);
    assert!(rt; !respond(rt, active, server, service, 3));
}

fn respond_twice<R: Abort, F: BackpressureFn, G: DegradationFn>(
    rt: &R,
    service: &mut RequestResponse<u64, u64, F, G>,
    server: &Server,
    active: &ActiveRequest,
)
    requires service { IsService service.old }
    requires server { IsLiveServer service.old server.now }
    ensures stays { StaysService service.old service.new }
{
    assert!(rt; respond(rt, active, server, service, 1));
    assert!(rt; respond(rt, active, server, service, 2));
}
