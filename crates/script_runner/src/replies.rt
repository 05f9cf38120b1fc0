//! The replies of a script, and its warnings.
ghost use Rattle.std.specs.Prelude.{IfErr, IfOk};
ghost use Rattle.script_runner.specs.Script.{ArePlayed, IsInputFailure};

use crate::source;
use arrayvec::ArrayString;
use iox2_pubsub::Domain;
use iox2_runs::{Reply, run};
use script_text::{Script, ScriptError, WARNING_ROOM, warning_lines};
use std::alloc::Global;
use std::io::Read;

/// What a script comes to.
#[derive(Drop)]
pub struct Played {
    /// A reply to each command.
    pub replies: Vec<Reply<u64, u64>>,
    /// A line for each warning that the domain keeps afterwards.
    pub warnings: ArrayString<WARNING_ROOM>,
}

/// Carries out the commands of the script that `input` holds.
///
/// `InputFailed` where it can't be read, `BadCommand` where a line isn't one of a script, and
/// `OutOfMemory` where there is no room for the text, its commands, the domain or the replies.
pub fn play<R: Read>(alloc: Global, input: &mut R) -> Result<Played, ScriptError>
    ensures ok { IfOk result (λ played. ArePlayed (R.remaining input.old) played.replies.items played.warnings.bytes) }
    ensures err { IfErr result (IsInputFailure (R.remaining input.old)) }
{
    let text = source::read_to_end(alloc, input)?;
    let script = Script::parse(alloc, &text)?;
    let Ok(mut domain) = Domain::new(alloc, script.config) else {
        return Err(ScriptError::OutOfMemory);
    };
    let Ok(replies) = run(alloc, &mut domain, script.commands) else {
        return Err(ScriptError::OutOfMemory);
    };
    let warnings = warning_lines(domain.warnings());
    Ok(Played { replies, warnings })
}
