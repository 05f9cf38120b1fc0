//! What is said of a failure.
ghost use Rattle.std.specs.Prelude.{OnErr, OnOk};
ghost use Rattle.std.specs.Io.KnownBytes.{Appends};
ghost use Rattle.script_runner.specs.Endings.{error_line};
ghost use Rattle.script_runner.specs.Writing.{AppendsPart};

use crate::sink::write_all;
use script_text::ScriptError;
use std::io::{self, Write};

/// Writes a line that says what was wrong. Fails where `errors` does, which may have a part of the
/// line then. It takes no memory.
pub fn report<E: Write>(errors: &mut E, error: &ScriptError) -> io::Result<()>
    ensures ok { OnOk result (Appends (E.contents errors.old) (E.contents errors.new) (error_line error.now)) }
    ensures err { OnErr result (AppendsPart (E.contents errors.old) (E.contents errors.new) (error_line error.now)) }
{
    let mut line = error.text();
    line.push('\n');
    write_all(errors, line.as_bytes())
}
