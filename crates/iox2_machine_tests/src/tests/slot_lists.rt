use iox2_connections::take_slot;
use std::alloc::Global;
use std::process::Abort;

// Takes this slot out of four.
fn left(rt: &impl Abort, alloc: Global, slot: usize) -> Vec<usize> {
    let mut slots = Vec::with_capacity(alloc, 4).expect(rt, "room for slots");
    slots.push_reserved(4);
    slots.push_reserved(2);
    slots.push_reserved(7);
    slots.push_reserved(6);

    take_slot(&mut slots, slot);
    slots
}

#[test]
fn a_slot_is_taken_out_wherever_it_stands(rt: HostRuntime) {
    let alloc = rt.alloc();
    assert!(rt; &*left(&rt, alloc, 4) == [2, 7, 6].as_slice());
    assert!(rt; &*left(&rt, alloc, 2) == [4, 7, 6].as_slice());
    assert!(rt; &*left(&rt, alloc, 7) == [4, 2, 6].as_slice());
    assert!(rt; &*left(&rt, alloc, 6) == [4, 2, 7].as_slice());
    assert!(rt; &*left(&rt, alloc, 5) == [4, 2, 7, 6].as_slice());
}
