//! What a run says of a send.
ghost use Rattle.std.specs.Prelude.{◌≡◌};
ghost use Rattle.iox2_runs.specs.SendReplies.{reply_to_send, made_by_send};

use super::made::Made;
use iox2_commands::Reply;
use iox2_machine::SendError;
use iox2_pubsub::SendOutcome;

/// The reply to a send, a retry or a giving up with this outcome, and the blocked send, if it is
/// blocked.
pub(crate) fn send_reply<T, U>(outcome: Result<SendOutcome, SendError>) -> (Reply<T, U>, Made)
    ensures reply { result.0 ≡ reply_to_send outcome }
    ensures made { result.1 ≡ made_by_send outcome }
{
    match outcome {
        Ok(SendOutcome::Delivered(count)) => (Reply::Delivered(count), Made::Nothing),
        Ok(SendOutcome::Blocked(blocked)) => (Reply::Blocked, Made::Blocked(blocked)),
        Err(error) => (Reply::SendRefused(error), Made::Nothing),
    }
}
