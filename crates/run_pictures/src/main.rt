//! Draws a recording: what became of each message, command by command.
#![tactic(auto)]

mod axis;
mod canvas;
mod curves;
mod data;
mod drawing;
mod failure;
mod folded;
mod follow;
mod holders;
mod lanes;
mod legend;
mod mailboxes;
mod marks;
mod page;
mod picture;
mod positions;
mod rows;
mod story;

use command_line::run_task;
use failure::Failure;
use follow::story_of;
use page::page;
use picture::picture;
use recordings::load;
use std::io::Read;
use std::process::ExitCode;

fn main(rt: HostRuntime) -> ExitCode {
    run_task(&rt, carry_out)
}

// Draws the recording on standard input, as a picture or as a page around it.
fn carry_out(rt: &HostRuntime, words: &[String]) -> Result<(), Failure> {
    let [_, form] = words else {
        return Err(Failure::Usage);
    };
    let is_page = match form.as_str() {
        "svg" => false,
        "html" => true,
        _ => return Err(Failure::Usage),
    };
    let mut text = Vec::new(rt.alloc());
    rt.stdin().read_to_end(&mut text)?;
    let recording = load(rt.alloc(), text.as_slice())?;
    let story = story_of(rt.alloc(), &recording)?;
    let drawn = if is_page {
        page(rt.alloc(), &story)?
    } else {
        picture(rt.alloc(), &story)?
    };
    print!(rt; "{drawn}")?;
    Ok(())
}
