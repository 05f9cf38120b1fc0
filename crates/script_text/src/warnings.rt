//! The lines that are printed of warnings.
ghost use Rattle.std.specs.Prelude.{◌≡◌, ◌≤◌, ◌+◌, ◌*◌, ◌++◌, length};
ghost use Rattle.arrayvec.specs.ArrayString.{array_string_len};
ghost use Rattle.iox2_machine.specs.machine.Limits.{warning_limit};
ghost use Rattle.script_text.specs.Warnings.{warning_line, warning_lines};

use arrayvec::ArrayString;
use circular_buffer::HeapCircularBuffer;
use iox2_machine::Warning;

/// How many warnings a domain keeps.
const WARNING_LIMIT: usize = 32;

/// The most bytes that the line of a warning has.
const LONGEST_LINE: usize = 34;

/// Room for the lines of all warnings that a domain keeps.
pub const WARNING_ROOM: usize = WARNING_LIMIT * LONGEST_LINE;

/// A line for each warning of a domain, in their order. It takes no memory.
pub fn warning_lines(warnings: &HeapCircularBuffer<Warning>) -> ArrayString<WARNING_ROOM>
    requires { warnings.now.capacity ≡ warning_limit }
    ensures { result.bytes ≡ warning_lines warnings.now.items }
{
    prove!(warnings.len() <= WARNING_LIMIT);
    let mut lines = ArrayString::new();
    let (older, newer) = warnings.as_slices();
    push_lines(&mut lines, older);
    push_lines(&mut lines, newer);
    lines
}

fn push_lines(lines: &mut ArrayString<WARNING_ROOM>, warnings: &[Warning])
    requires { array_string_len lines.old + LONGEST_LINE * length warnings.now ≤ WARNING_ROOM }
    ensures bytes { lines.new.bytes ≡ lines.old.bytes ++ warning_lines warnings.now }
    ensures len { array_string_len lines.new ≤ array_string_len lines.old + LONGEST_LINE * length warnings.now }
{
    for warning in warnings {
        lines.push_str(warning_line(warning));
    }
}

fn warning_line(warning: &Warning) -> &'static str
    ensures value { result.now ≡ warning_line warning.now }
    ensures fits { length result.now ≤ LONGEST_LINE }
{
    match warning {
        Warning::ExpiredBufferRaised { .. } => "warning ExpiredBufferRaised\n",
        Warning::PublisherPartlyConnected { .. } => "warning PublisherPartlyConnected\n",
        Warning::SubscriberPartlyConnected { .. } => "warning SubscriberPartlyConnected\n",
        Warning::ConnectionNotMade { .. } => "warning ConnectionNotMade\n",
        Warning::ExpiredDataDiscarded { .. } => "warning ExpiredDataDiscarded\n",
    }
}
