//! The text of a script.
ghost use Rattle.std.specs.Prelude.{IfErr, IfOk};
ghost use Rattle.script_runner.specs.Reading.{IsReadFailure, MovesBytes};
ghost use Rattle.script_runner.specs.Script.{IsAllOf};

use script_text::ScriptError;
use std::alloc::Global;
use std::io::{ErrorKind, Read};

/// All that `input` gives.
///
/// `InputFailed` where a read fails, `OutOfMemory` where the text finds no room.
pub fn read_to_end<R: Read>(alloc: Global, input: &mut R) -> Result<Vec<u8>, ScriptError>
    ensures ok { IfOk result (λ text. IsAllOf (R.remaining input.old) text.items) }
    ensures err { IfErr result IsReadFailure }
{
    let mut text = Vec::new(alloc);
    for _ in 0..u64::MAX {
        if read_more(input, &mut text)? {
            return Ok(text);
        }
    }
    Err(ScriptError::InputFailed)
}

/// Adds what one read gives to the text, and returns whether the input is at its end. A read that
/// was interrupted adds nothing.
fn read_more<R: Read>(input: &mut R, text: &mut Vec<u8>) -> Result<bool, ScriptError>
    ensures ok { IfOk result (MovesBytes (R.remaining input.old) (R.remaining input.new) text.old.items text.new.items) }
    ensures err { IfErr result IsReadFailure }
{
    let mut chunk = [0; 1024];
    match input.read(&mut chunk) {
        Ok(count) => {
            text.extend_from_slice(&chunk[..count])?;
            Ok(count == 0)
        }
        Err(error) => {
            if error.kind() == ErrorKind::Interrupted {
                Ok(false)
            } else {
                Err(ScriptError::InputFailed)
            }
        }
    }
}
