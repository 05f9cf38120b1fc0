ghost use Rattle.iox2_request_response.specs.Handles.{IsLiveClient, IsLiveServer};
ghost use Rattle.iox2_request_response.specs.Service.{IsService, StaysService};

use crate::fixtures::{Service, close_both, next_request, ports_of, send_in_vain, sent};
use iox2_request_response::{Client, RequestResponseConfig, Server};
use std::alloc::Global;
use std::process::Abort;

// With overflow a request that still waits for responses is pushed out by a later one, where the buffer is
// full of requests that were let go, and its client isn't told.
#[test]
fn overflow_loses_a_request_that_still_waits(rt: HostRuntime) {
    let with = lost_with(&rt, rt.alloc(), true);
    let without = lost_with(&rt, rt.alloc(), false);
    assert!(rt; with == (1, [Some(3), None, None], true));
    assert!(rt; without == (0, [Some(1), None, None], false));
}

fn lost_with(rt: &impl Abort, alloc: Global, overflow: bool) -> (usize, [Option<u64>; 3], bool) {
    let config = RequestResponseConfig {
        max_active_requests_per_client: 2,
        enable_safe_overflow_for_requests: overflow,
        ..RequestResponseConfig::new(7)
    };
    let mut service = Service::new(alloc, &config).expect(rt, "a service");
    let (mut client, server) = ports_of(rt, alloc, &mut service);
    let seen = push_out(rt, &mut service, &server, &mut client);
    let left = close_both(client, server, &mut service);
    drop(service);
    assert!(rt; left == [0, 0, 0, 0]);
    seen
}

// To how many servers the last request was sent, which ones the server gets, and whether the first is
// connected then.
fn push_out(
    rt: &impl Abort,
    service: &mut Service,
    server: &Server,
    client: &mut Client,
) -> (usize, [Option<u64>; 3], bool)
    requires service { IsService service.old }
    requires server { IsLiveServer service.old server.now }
    requires client { IsLiveClient service.old client.old }
    ensures client { IsLiveClient service.new client.new }
    ensures stays { StaysService service.old service.new }
{
    let first = sent(rt, client, service, 1);
    send_in_vain(rt, client, service, 2);
    let third = sent(rt, client, service, 3);
    let reached = third.number_of_server_connections();
    let asked = next_three(rt, server, service);
    let waits = first.is_connected(service);
    first.close(client, service);
    third.close(client, service);
    (reached, asked, waits)
}

fn next_three(rt: &impl Abort, server: &Server, service: &mut Service) -> [Option<u64>; 3]
    requires service { IsService service.old }
    requires server { IsLiveServer service.old server.now }
    ensures stays { StaysService service.old service.new }
{
    [
        next_request(rt, server, service),
        next_request(rt, server, service),
        next_request(rt, server, service),
    ]
}
