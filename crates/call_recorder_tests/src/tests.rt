mod channels;
mod names;
mod reads;
mod rooms;
mod writes;

use call_recorder::Recorder;
use iox2_machine::ServiceConfig;
use recordings::{Recording, load};
use std::alloc::Global;
use std::process::Abort;

/// A recorder for that many commands and that many bytes of each message.
fn recorder_for(rt: &impl Abort, alloc: Global, room: usize, bytes: usize) -> Recorder {
    Recorder::new(alloc, room, bytes).expect(rt, "a recorder")
}

/// The text of a recording, of a domain with the defaults.
fn text_of(rt: &impl Abort, alloc: Global, recorder: &Recorder) -> String {
    recorder
        .text(alloc, ServiceConfig::new(7))
        .expect(rt, "a text")
}

/// What is read of that text.
fn recording_of(rt: &impl Abort, alloc: Global, recorder: &Recorder) -> Recording {
    let text = text_of(rt, alloc, recorder);
    load(alloc, text.as_bytes()).expect(rt, "a recording")
}

/// Asserts that these lines are kept, each a command with its reply, no others, and none is missed.
fn assert_kept(rt: &impl Abort, alloc: Global, recorder: &Recorder, lines: &str) {
    let text = text_of(rt, alloc, recorder);
    let Some((_settings, rest)) = text.as_str().split_once(" overflow\n") else {
        panic!(rt; "no settings");
    };
    let Some((kept, _sum)) = rest.rsplit_once("end ") else {
        panic!(rt; "no end");
    };
    assert_eq!(rt; kept, lines);
    assert_eq!(rt; recorder.missed(), 0);
}
