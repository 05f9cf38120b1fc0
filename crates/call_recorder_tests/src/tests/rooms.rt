use super::{recorder_for, recording_of};
use call_recorder::{Name, Recorder};
use iox2_commands::{Command, Reply};
use iox2_machine::UniquePublisherId;
use std::mem;

// How many commands the first calls of `make_calls` are, for each number of them.
const ENDS: [usize; 6] = [0, 4, 9, 14, 15, 17];

// Calls of several commands, and of one.
fn make_calls(recorder: &mut Recorder) {
    let origin = UniquePublisherId::new(9);
    recorder.keep_received(Name::Loan(3), 0, origin, &[1, 2, 3]);
    recorder.keep_taken(0, origin, &[4, 5, 6]);
    recorder.keep_copy(1, b"aab", None, Reply::Delivered(1));
    recorder.keep(Command::Nothing, Reply::Done);
    recorder.keep_bytes(2, &[7, 7, 7]);
    recorder.keep_send(2, None, Reply::Delivered(1));
}

#[test]
fn a_call_is_kept_whole_or_not_at_all(rt: HostRuntime) {
    for room in 0..=17usize {
        let mut recorder = recorder_for(&rt, rt.alloc(), room, 16);
        make_calls(&mut recorder);
        let fits = ENDS.iter().filter(|end| **end <= room);
        let kept = fits.last().copied().unwrap_or(0);
        let recording = recording_of(&rt, rt.alloc(), &recorder);
        assert_eq!(rt; recording.commands.len(), kept);
        assert_eq!(rt; recording.replies.len(), kept);
        assert_eq!(rt; recorder.missed(), 17u64.saturating_sub(kept as u64));
    }
}

#[test]
fn as_many_commands_are_kept_as_there_is_room_for(rt: HostRuntime) {
    for room in [0usize, 1, 14, 15, 37] {
        let mut recorder = recorder_for(&rt, rt.alloc(), room, 16);
        for _ in 0..40u64 {
            recorder.keep(Command::Nothing, Reply::Skipped);
        }
        let recording = recording_of(&rt, rt.alloc(), &recorder);
        assert_eq!(rt; recording.commands.len(), room);
        assert_eq!(rt; recorder.missed(), 40u64.saturating_sub(room as u64));
    }
}

#[test]
fn nothing_is_kept_behind_a_call_that_was_missed(rt: HostRuntime) {
    let mut recorder = recorder_for(&rt, rt.alloc(), 3, 16);
    recorder.keep(Command::Nothing, Reply::Done);
    recorder.keep_taken(0, UniquePublisherId::new(9), &[4, 5, 6]);
    recorder.keep(Command::Nothing, Reply::Done);
    let recording = recording_of(&rt, rt.alloc(), &recorder);
    assert_eq!(rt; recording.commands.len(), 1);
    assert_eq!(rt; recorder.missed(), 6);
}

#[test]
fn a_command_and_its_reply_take_this_many_bytes(rt: HostRuntime) {
    assert_eq!(rt; mem::size_of::<Command<u64, u64>>(), 48);
    assert_eq!(rt; mem::size_of::<Reply<u64, u64>>(), 64);
}
