//! Times across a picture, and the commands below it.
use crate::canvas::line;
use crate::drawing::Drawing;
use crate::story::Story;

/// Where times lie across a picture.
#[derive(Clone, Copy)]
pub(crate) struct Scale {
    pub(crate) left: usize,
    pub(crate) step: usize,
    pub(crate) count: usize,
}

impl Scale {
    /// The scale of that many commands.
    pub(crate) fn new(count: usize) -> Scale {
        let step = match count {
            0..=30 => 30,
            31..=60 => 24,
            61..=120 => 18,
            _ => 13,
        };
        Scale {
            left: 104,
            step,
            count,
        }
    }

    /// The middle of a command's column.
    pub(crate) fn x(self, at: usize) -> usize {
        self.left
            .saturating_add(at.saturating_mul(self.step))
            .saturating_add(self.step / 2)
    }

    /// Where the last column ends.
    pub(crate) fn right(self) -> usize {
        self.left
            .saturating_add(self.count.saturating_mul(self.step))
    }

    /// Where something that is still there ends.
    pub(crate) fn end(self, at: Option<usize>) -> usize {
        match at {
            Some(at) => self.x(at),
            None => self.right(),
        }
    }
}

/// How much room the longest command needs, written upright.
pub(crate) fn label_height(story: &Story) -> usize {
    let mut longest = 6usize;
    for command in story.commands.iter() {
        longest = longest.max(command.len());
    }
    longest.saturating_add(6).saturating_mul(6)
}

/// Draws a line for each command and its text below, upright.
pub(crate) fn push_commands(
    svg: &mut Drawing,
    story: &Story,
    scale: Scale,
    top: usize,
    bottom: usize,
) {
    for at in 0..scale.count {
        let x = scale.x(at);
        line(svg, (x, top), (x, bottom), "grid", "#ddd");
        push_command(svg, story, at, x, bottom.saturating_add(4));
    }
}

fn push_command(svg: &mut Drawing, story: &Story, at: usize, x: usize, y: usize) {
    let (Some(command), Some(reply)) = (story.commands.get(at), story.replies.get(at)) else {
        return;
    };
    let class = if reply.as_str().starts_with("err ") {
        "refused"
    } else if reply.as_str() == "skipped" {
        "note"
    } else {
        "command"
    };
    let x = x.saturating_add(3);
    svg.text("<text");
    svg.word("class", class);
    svg.moved(x, y);
    svg.text(" rotate(-90)\" text-anchor=\"end\">");
    svg.escaped(command.as_str());
    svg.text("<tspan dx=\"6\" font-weight=\"bold\">");
    svg.number(at.saturating_add(1));
    svg.text("</tspan><title>");
    svg.escaped(reply.as_str());
    svg.text("</title></text>\n");
}
