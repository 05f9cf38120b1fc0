//! Questions go to a server, and answers come back.
ghost use Rattle.iox2_request_response.specs.Handles.{HasPortsOf, IsLiveActive, IsLiveClient, IsLivePending, IsLiveServer, StaysButActive};
ghost use Rattle.iox2_request_response.specs.Service.{IsService, StaysService};

use crate::failure::Failure;
use iox2_request_response::{ActiveRequest, Client, PendingResponse, RequestResponse, Server};
use std::alloc::Global;

/// Answers a question with its double, and ends the request. Returns whether the answer was taken.
pub fn answer(
    service: &mut RequestResponse<u32, u32>,
    server: &Server,
    question: ActiveRequest,
) -> Result<bool, Failure>
    requires service { IsService service.old }
    requires server { IsLiveServer service.old server.now }
    requires question { IsLiveActive service.old question }
    ensures stays { StaysButActive service.old service.new question }
{
    let asked = *question.payload(service);
    let taken = question.send_copy(server, service, asked.wrapping_mul(2));
    question.finish(server, service);
    Ok(taken?)
}

/// Answers the next question, if there is one. Returns whether its answer was taken.
pub fn answer_one(service: &mut RequestResponse<u32, u32>, server: &Server) -> Result<bool, Failure>
    requires service { IsService service.old }
    requires server { IsLiveServer service.old server.now }
    ensures stays { StaysService service.old service.new }
{
    match server.receive(service)? {
        Some(question) => answer(service, server, question),
        None => Ok(false),
    }
}

/// The next answer to a question.
pub fn next_answer(
    service: &mut RequestResponse<u32, u32>,
    pending: &PendingResponse,
) -> Result<Option<u32>, Failure>
    requires service { IsService service.old }
    requires pending { IsLivePending service.old pending.now }
    ensures stays { StaysService service.old service.new }
{
    let Some(response) = pending.receive(service)? else {
        return Ok(None);
    };
    let value = *response.payload(service);
    response.release(service);
    Ok(Some(value))
}

/// Asks a question, has the server answer one, and returns the answer that came.
#[tactic(auto, using(iox2_request_response::proofs::Calling::calling))]
pub fn ask(
    service: &mut RequestResponse<u32, u32>,
    client: &mut Client,
    server: &Server,
    question: u32,
) -> Result<Option<u32>, Failure>
    requires service { IsService service.old }
    requires client { IsLiveClient service.old client.old }
    requires server { IsLiveServer service.old server.now }
    ensures client { IsLiveClient service.new client.new }
    ensures ports { HasPortsOf client.old client.new }
    ensures stays { StaysService service.old service.new }
{
    let pending = client.send_copy(service, question)?;
    let answered = answer_one(service, server);
    let outcome = next_answer(service, &pending);
    pending.close(client, service);
    answered?;
    outcome
}

/// Asks two questions at a time, and returns the answers that came.
#[tactic(auto, using(iox2_request_response::proofs::Calling::calling))]
pub fn ask_twice(
    service: &mut RequestResponse<u32, u32>,
    client: &mut Client,
    server: &Server,
) -> Result<(Option<u32>, Option<u32>), Failure>
    requires service { IsService service.old }
    requires client { IsLiveClient service.old client.old }
    requires server { IsLiveServer service.old server.now }
    ensures client { IsLiveClient service.new client.new }
    ensures stays { StaysService service.old service.new }
{
    let first = client.send_copy(service, 1)?;
    let second = match client.send_copy(service, 2) {
        Ok(second) => second,
        Err(error) => {
            first.close(client, service);
            return Err(error.into());
        }
    };
    let one = answer_one(service, server);
    let two = answer_one(service, server);
    let earlier = next_answer(service, &first);
    let later = next_answer(service, &second);
    first.close(client, service);
    second.close(client, service);
    one?;
    two?;
    Ok((earlier?, later?))
}

/// Makes a client and a server, asks a question, and closes both.
#[tactic(auto, using(iox2_request_response::proofs::Calling::calling))]
pub fn serve_once(
    alloc: Global,
    service: &mut RequestResponse<u32, u32>,
) -> Result<Option<u32>, Failure>
    requires service { IsService service.old }
    ensures stays { StaysService service.old service.new }
{
    let server = service.create_server()?;
    let mut client = match service.create_client(alloc) {
        Ok(client) => client,
        Err(error) => {
            server.close(service);
            return Err(error.into());
        }
    };
    let outcome = ask(service, &mut client, &server, 21);
    client.close(service);
    server.close(service);
    outcome
}
