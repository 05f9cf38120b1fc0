use super::{assert_kept, recorder_for};
use call_recorder::Name;
use iox2_machine::UniquePublisherId;

const NAME: Name = Name::Sample {
    subscriber: 1,
    number: 5,
};

#[test]
fn each_byte_of_a_received_message_is_read_once(rt: HostRuntime) {
    let mut recorder = recorder_for(&rt, rt.alloc(), 37, 5);
    recorder.keep_received(NAME, 0, UniquePublisherId::new(9), b"abcab");
    assert_kept(
        &rt,
        rt.alloc(),
        &recorder,
        "recv 1 = sample 9\n\
         read 1 = value 97\n\
         read 1 1 = value 98\n\
         read 1 2 = value 99\n\
         read 1 3 = value 97\n\
         read 1 4 = value 98\n",
    );
    assert_eq!(rt; recorder.position_of(NAME), 0);
}

#[test]
fn bytes_behind_those_that_are_kept_are_not_read(rt: HostRuntime) {
    let mut recorder = recorder_for(&rt, rt.alloc(), 37, 2);
    recorder.keep_received(NAME, 3, UniquePublisherId::new(11), &[255, 0, 7]);
    recorder.keep_received(NAME, 4, UniquePublisherId::new(12), &[8]);
    assert_kept(
        &rt,
        rt.alloc(),
        &recorder,
        "recv 4 = sample 11\n\
         read 1 = value 255\n\
         read 1 1 = value 0\n\
         recv 5 = sample 12\n\
         read 4 = value 8\n",
    );
}

#[test]
fn a_message_without_bytes_is_not_read(rt: HostRuntime) {
    let mut recorder = recorder_for(&rt, rt.alloc(), 37, 0);
    recorder.keep_received(NAME, 0, UniquePublisherId::new(9), b"abc");
    recorder.keep_received(NAME, 0, UniquePublisherId::new(9), b"");
    assert_kept(
        &rt,
        rt.alloc(),
        &recorder,
        "recv 1 = sample 9\nrecv 1 = sample 9\n",
    );
}

#[test]
fn a_message_that_is_taken_is_read_and_released(rt: HostRuntime) {
    let mut recorder = recorder_for(&rt, rt.alloc(), 37, 3);
    recorder.keep_taken(1, UniquePublisherId::new(4), &[1, 2, 3]);
    recorder.keep_taken(1, UniquePublisherId::new(4), &[3, 200]);
    assert_kept(
        &rt,
        rt.alloc(),
        &recorder,
        "recv 2 = sample 4\n\
         read 1 = value 1\n\
         read 1 1 = value 2\n\
         read 1 2 = value 3\n\
         release 1 = done\n\
         recv 2 = sample 4\n\
         read 6 = value 3\n\
         read 6 1 = value 200\n\
         release 6 = done\n",
    );
}
