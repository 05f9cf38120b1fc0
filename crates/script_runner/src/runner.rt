ghost use Rattle.std.specs.Prelude.{◌≡◌, ◌≢◌, IfErr, IfOk};
ghost use Rattle.std.specs.Io.KnownBytes.{Appends};
ghost use Rattle.script_text.specs.declared.failure.ScriptError.{ScriptError};
ghost use Rattle.script_text.specs.declared.failure.ScriptError.TheVariants.{OutputFailed};
ghost use Rattle.script_runner.specs.declared.ending.Ending.TheVariants.{Printed, Unwarned, Reported, Unreported};
ghost use Rattle.script_runner.specs.Endings.{FailsWith, error_line};
ghost use Rattle.script_runner.specs.Script.{IsFailure, PrintsAll, PrintsReplies, PrintsRepliesAlone};
ghost use Rattle.script_runner.specs.Writing.{AppendsPart};

use crate::ending::Ending;
use crate::replies::play;
use crate::report::report;
use crate::sink::write_all;
use arrayvec::ArrayString;
use script_text::{ScriptError, WARNING_ROOM, reply_lines};
use std::alloc::Global;
use std::io::{Read, Write};

/// Runs the script that `input` holds, and writes a line for each reply to `output`, which it
/// flushes, and then one for each of the domain's last warnings to `errors`. It passes over a fault
/// there: then `errors` has a part of these lines at most, and the ending is `Unwarned`.
///
/// Where it fails a line on `errors` says with what, and no warning is written:
///
/// - `BadCommand`: a line isn't one of a script, and this is the first. Nothing ran, and nothing is
///   written to `output`.
/// - `OutOfMemory`: there was no room for the text, its commands, the domain, or the replies and
///   their lines. Nothing is written to `output`. A port that finds no room is no such case: its
///   reply says so.
/// - `InputFailed`: `input` can't be read to its end. Nothing is written to `output`.
/// - `OutputFailed`: `output` can't be written or flushed. It may have a part of the lines.
///
/// The failure is `Reported` with its line, or `Unreported` where `errors` fails too.
pub fn script<R: Read, W: Write, E: Write>(
    alloc: Global,
    input: &mut R,
    output: &mut W,
    errors: &mut E,
) -> Ending
    ensures printed { result ≡ Printed → PrintsAll (R.remaining input.old) (W.contents output.old)
        (W.contents output.new) (E.contents errors.old) (E.contents errors.new) }
    ensures unwarned { result ≡ Unwarned → PrintsRepliesAlone (R.remaining input.old) (W.contents output.old)
        (W.contents output.new) (E.contents errors.old) (E.contents errors.new) }
    ensures failed { (error : ScriptError) → FailsWith result error → IsFailure (R.remaining input.old) (W.contents output.old) (W.contents output.new) error }
    ensures untouched { (error : ScriptError) → FailsWith result error → error ≢ OutputFailed → output.new ≡ output.old }
    ensures reported { (error : ScriptError) → result ≡ Reported error → Appends (E.contents errors.old) (E.contents errors.new) (error_line error) }
    ensures unreported { (error : ScriptError) → result ≡ Unreported error → AppendsPart (E.contents errors.old) (E.contents errors.new) (error_line error) }
{
    match print_replies(alloc, input, output) {
        Ok(warnings) => match write_all(errors, warnings.as_str().as_bytes()) {
            Ok(()) => Ending::Printed,
            Err(_) => Ending::Unwarned,
        },
        Err(error) => match report(errors, &error) {
            Ok(()) => Ending::Reported(error),
            Err(_) => Ending::Unreported(error),
        },
    }
}

// Writes the replies, and returns the lines of the warnings.
fn print_replies<R: Read, W: Write>(
    alloc: Global,
    input: &mut R,
    output: &mut W,
) -> Result<ArrayString<WARNING_ROOM>, ScriptError>
    ensures ok { IfOk result (λ warnings. PrintsReplies (R.remaining input.old) (W.contents output.old) (W.contents output.new) warnings.bytes) }
    ensures err { IfErr result (IsFailure (R.remaining input.old) (W.contents output.old) (W.contents output.new)) }
    ensures untouched { IfErr result (λ error. error ≢ OutputFailed → output.new ≡ output.old) }
{
    let played = play(alloc, input)?;
    let text = reply_lines(alloc, &played.replies)?;
    let Ok(()) = write_all(output, text.as_bytes()) else {
        return Err(ScriptError::OutputFailed);
    };
    let Ok(()) = output.flush() else {
        return Err(ScriptError::OutputFailed);
    };
    Ok(played.warnings)
}
