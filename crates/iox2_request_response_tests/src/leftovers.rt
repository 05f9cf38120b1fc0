ghost use Rattle.iox2_request_response.specs.Handles.{IsLiveClient, IsLivePending, IsLiveResponse, IsLiveServer, IsNewResponse};
ghost use Rattle.iox2_request_response.specs.Service.{IsService, StaysService};

use crate::fixtures::{Service, close_both, ports_of, receive_each, response_of, sent, serve};
use iox2_pubsub::ReceiveError;
use iox2_request_response::{Client, PendingResponse, RequestResponseConfig, Response, Server};
use std::process::Abort;

// Responses to an earlier request, which couldn't be emptied, are released and not given out. There is
// room for one of them and two later ones, so that none pushes it out.
#[test]
fn what_was_left_of_an_earlier_request_is_passed_over(rt: HostRuntime) {
    let config = RequestResponseConfig {
        max_active_requests_per_client: 1,
        max_response_buffer_size: 3,
        max_borrowed_responses_per_pending_response: 1,
        ..RequestResponseConfig::new(7)
    };
    let mut service = Service::new(rt.alloc(), &config).expect(&rt, "a service");
    let (mut client, server) = ports_of(&rt, rt.alloc(), &mut service);
    pass_over(&rt, &mut service, &server, &mut client);
    let left = close_both(client, server, &mut service);
    drop(service);
    assert!(rt; left == [0, 0, 0, 0]);
}

#[tactic(auto, using(iox2_request_response::proofs::Calling::calling, iox2_request_response::proofs::Ending::response_ends, iox2_request_response::proofs::Calling::client_but_response, iox2_request_response::proofs::Ending::pending_but_response))]
fn pass_over(rt: &impl Abort, service: &mut Service, server: &Server, client: &mut Client)
    requires service { IsService service.old }
    requires server { IsLiveServer service.old server.now }
    requires client { IsLiveClient service.old client.old }
    ensures client { IsLiveClient service.new client.new }
    ensures stays { StaysService service.old service.new }
{
    let held = leave_one(rt, service, server, client);
    let pending = sent(rt, client, service, 2);
    serve(rt, server, service, 2, [20, 21].as_slice());
    assert!(rt; *held.payload(service) == 10);
    held.release(service);
    receive_each(rt, &pending, service, [20, 21].as_slice());
    pending.close(client, service);
}

// Of two responses the first is held, so that the second can't be received when the request is let go.
fn leave_one(
    rt: &impl Abort,
    service: &mut Service,
    server: &Server,
    client: &mut Client,
) -> Response
    requires service { IsService service.old }
    requires server { IsLiveServer service.old server.now }
    requires client { IsLiveClient service.old client.old }
    ensures response { IsLiveResponse service.new result }
    ensures is_new { IsNewResponse service.old result }
    ensures client { IsLiveClient service.new client.new }
    ensures stays { StaysService service.old service.new }
{
    let pending = sent(rt, client, service, 1);
    serve(rt, server, service, 1, [10, 11].as_slice());
    let held = response_of(rt, &pending, service);
    assert!(rt; response_is_refused(&pending, service));
    pending.close(client, service);
    held
}

// Whether the second is refused, since as many are held as may be.
#[tactic(auto, using(iox2_request_response::proofs::Calling::calling, iox2_request_response::proofs::Ending::response_ends))]
fn response_is_refused(pending: &PendingResponse, service: &mut Service) -> bool
    requires pending { IsLivePending service.old pending.now }
    ensures stays { StaysService service.old service.new }
{
    match pending.receive(service) {
        Ok(Some(response)) => {
            response.release(service);
            false
        }
        Ok(None) => false,
        Err(error) => error == ReceiveError::ExceedsMaxBorrows,
    }
}
