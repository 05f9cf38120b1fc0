//! The lines of a text.
ghost use Rattle.std.specs.Prelude.{◌≡◌, ◌≢◌, ◌<◌, MatchOption, length};
ghost use Rattle.std.specs.Iterator.{YieldsFirstBy, at_most};
ghost use Rattle.std.specs.List.{AllWithin, HoldsAt};
ghost use Rattle.std.specs.Str.Lines.{lines, strip_carriage_return};

/// The lines of a text, each without its end.
///
/// A line ends with a line feed, and the last one may lack it. A carriage return before a line feed
/// belongs to the end of the line.
#[derive(Drop)]
pub struct Lines<'a> {
    /// The text after the lines that came.
    pub rest: &'a [u8],
}

impl<'a> Iterator for Lines<'a> {
    type Item = &'a [u8];

    ghost next_gives = { YieldsFirstBy (λ line. line.now) (λ text. lines text.rest.now) };

    ghost remaining = { λ text. at_most (length text.rest.now) };

    fn next(&mut self) -> Option<&'a [u8]> {
        if self.rest.is_empty() {
            return None;
        }
        let Some(end) = first_line_feed(self.rest) else {
            let line = self.rest;
            self.rest = &[];
            return Some(line);
        };
        let line = &self.rest[..end];
        self.rest = &self.rest[end + 1..];
        Some(without_carriage_return(line))
    }
}

fn first_line_feed(text: &[u8]) -> Option<usize>
    ensures { MatchOption result (AllWithin (λ b. b ≢ 10) text.now 0 (length text.now))
        (λ end. (end < length text.now) × HoldsAt (λ b. b ≡ 10) text.now end × AllWithin (λ b. b ≢ 10) text.now 0 end) }
{
    text.iter().position(|byte| *byte == b'\n')
}

/// The line without the carriage return at its end, if it has one there.
fn without_carriage_return(line: &[u8]) -> &[u8]
    ensures { result.now ≡ strip_carriage_return line.now }
{
    match line {
        [front @ .., b'\r'] => front,
        _ => line,
    }
}
