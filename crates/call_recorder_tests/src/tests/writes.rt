use super::{assert_kept, recorder_for};
use call_recorder::Name;
use iox2_commands::Reply;

#[test]
fn a_loan_is_written_with_one_value_and_set_where_it_differs(rt: HostRuntime) {
    let mut recorder = recorder_for(&rt, rt.alloc(), 37, 16);
    recorder.keep_bytes(2, b"aabaaba");
    recorder.keep_bytes(4, &[7, 7, 7]);
    assert_kept(
        &rt,
        rt.alloc(),
        &recorder,
        "write 3 97 = done\n\
         set 3 2 98 = done\n\
         set 3 5 98 = done\n\
         write 5 7 = done\n",
    );
}

#[test]
fn bytes_behind_those_that_are_kept_are_0(rt: HostRuntime) {
    let mut recorder = recorder_for(&rt, rt.alloc(), 37, 3);
    recorder.keep_bytes(2, &[7, 0, 9, 9]);
    recorder.keep_bytes(2, &[9, 9, 8]);
    assert_kept(
        &rt,
        rt.alloc(),
        &recorder,
        "write 3 0 = done\n\
         set 3 0 7 = done\n\
         set 3 2 9 = done\n\
         write 3 8 = done\n\
         set 3 0 9 = done\n\
         set 3 1 9 = done\n",
    );
}

#[test]
fn a_copy_is_a_loan_its_bytes_and_a_send(rt: HostRuntime) {
    let mut recorder = recorder_for(&rt, rt.alloc(), 37, 16);
    recorder.keep_copy(1, b"aab", None, Reply::Delivered(2));
    recorder.keep_copy(1, &[5], Some(Name::Blocked(8)), Reply::Blocked);
    assert_kept(
        &rt,
        rt.alloc(),
        &recorder,
        "slice 2 3 = loaned\n\
         write 1 98 = done\n\
         set 1 0 97 = done\n\
         set 1 1 97 = done\n\
         send 1 = delivered 2\n\
         slice 2 1 = loaned\n\
         write 6 5 = done\n\
         send 6 = blocked\n",
    );
    assert_eq!(rt; recorder.position_of(Name::Blocked(8)), 7);
}
