//! Publishers whose memory grows.
use iox2_commands::{Command, NewPublisher, Reply};
use iox2_machine::{
    AllocationStrategy, BackpressureStrategy, DegradationAction, LoanError, ServiceConfig,
    TypeVariant, UniquePublisherId,
};
use iox2_model::{Memory, Model, ModelError};
use std::alloc::Global;
use std::process::Abort;

// A service of slices, in which three slots are the worst case of a publisher with one loan.
fn slices() -> ServiceConfig {
    ServiceConfig {
        variant: TypeVariant::Dynamic,
        max_publishers: 1,
        max_subscribers: 1,
        subscriber_max_buffer_size: 1,
        subscriber_max_borrowed_samples: 1,
        history_size: 0,
        ..ServiceConfig::new(1)
    }
}

// A publisher with that many loans, whose first segment is for slices of length 1.
fn publisher(
    loans: usize,
    allocation: AllocationStrategy,
    override_slots: Option<usize>,
) -> Command<u64, u64> {
    Command::CreatePublisher(NewPublisher {
        allocation,
        override_slots,
        ..NewPublisher::new(loans, BackpressureStrategy::DiscardData)
    })
}

const SUBSCRIBER: Command<u64, u64> = Command::CreateSubscriber {
    buffer: Some(1),
    degradation: DegradationAction::Warn,
};

// A model of the service with this publisher as its first command, with that much memory for segments.
fn model(rt: &impl Abort, alloc: Global, memory: Memory, first: Command<u64, u64>) -> Model {
    let mut model = Model::new(alloc, slices(), memory).expect(rt, "a model");
    let made = Reply::PublisherMade(UniquePublisherId::new(1));
    assert!(rt; model.carry_out(first, None) == Ok(made));
    model
}

// The next command gets this reply.
fn expect(
    rt: &impl Abort,
    model: &mut Model,
    command: Command<u64, u64>,
    expected: Reply<u64, u64>,
) {
    let at = model.command_count();
    let reply = model.carry_out(command, None).expect(rt, "a reply");
    assert!(rt; reply == expected, "at {at}: {reply:?}");
}

// A loan of that length is granted, and discarded.
fn lend_and_discard(rt: &impl Abort, model: &mut Model, len: usize) {
    let of = model.command_count();
    expect(rt, model, Command::LoanSlice { of: 0, len }, Reply::Loaned);
    expect(rt, model, Command::Discard { of }, Reply::Done);
}

fn refuse(rt: &impl Abort, model: &mut Model, len: usize, error: LoanError) {
    let reply = Reply::LoanRefused(error);
    expect(rt, model, Command::LoanSlice { of: 0, len }, reply);
}

#[test]
fn best_fit_makes_a_segment_for_each_longer_loan(rt: HostRuntime) {
    let first = publisher(1, AllocationStrategy::BestFit, None);
    let mut model = model(&rt, rt.alloc(), Memory::ample(), first);
    for len in 2..256 {
        lend_and_discard(&rt, &mut model, len);
    }
    refuse(&rt, &mut model, 256, LoanError::OutOfMemory);
    lend_and_discard(&rt, &mut model, 255);
    assert!(rt; model.max_slice_len_at(0) == 255);
}

#[test]
fn powers_of_two_last_longer(rt: HostRuntime) {
    let first = publisher(1, AllocationStrategy::PowerOfTwo, None);
    let mut model = model(&rt, rt.alloc(), Memory::ample(), first);
    for len in 2..257 {
        lend_and_discard(&rt, &mut model, len);
    }
    assert!(rt; model.max_slice_len_at(0) == 256);
    lend_and_discard(&rt, &mut model, 257);
    assert!(rt; model.max_slice_len_at(0) == 512);
}

#[test]
fn a_loan_that_fits_no_segment_changes_nothing(rt: HostRuntime) {
    for allocation in [AllocationStrategy::BestFit, AllocationStrategy::PowerOfTwo] {
        let first = publisher(1, allocation, None);
        let mut model = model(&rt, rt.alloc(), Memory::ample(), first);
        lend_and_discard(&rt, &mut model, 4);
        refuse(&rt, &mut model, usize::MAX, LoanError::InternalFailure);
        assert!(rt; model.max_slice_len_at(0) == 4);
        lend_and_discard(&rt, &mut model, 4);
    }
}

// The size of a segment of one slot fits. The model has no reply then, and says so at once.
#[test]
fn a_loan_that_no_memory_holds_gets_no_reply(rt: HostRuntime) {
    let first = publisher(1, AllocationStrategy::BestFit, Some(1));
    let mut model = model(&rt, rt.alloc(), Memory::ample(), first);
    let len = usize::MAX;
    let reply = model.carry_out(Command::LoanSlice { of: 0, len }, None);
    assert!(rt; matches!(reply, Err(ModelError::OutOfMemory(_))));
}

#[test]
fn a_full_segment_is_followed_by_another(rt: HostRuntime) {
    let first = publisher(2, AllocationStrategy::BestFit, Some(1));
    let mut model = model(&rt, rt.alloc(), Memory::ample(), first);
    let loan = Command::LoanSlice { of: 0, len: 1 };
    expect(&rt, &mut model, loan, Reply::Loaned);
    expect(&rt, &mut model, loan, Reply::Loaned);
    refuse(&rt, &mut model, 1, LoanError::ExceedsMaxLoans);
}

// The first segment is held by the first loan all the while, and each other one by none. So each loan
// behind the first one that couldn't allocate needs the memory again.
#[test]
fn refused_memory_is_asked_for_again(rt: HostRuntime) {
    let first = publisher(2, AllocationStrategy::BestFit, Some(1));
    let mut model = model(&rt, rt.alloc(), Memory::refused_after(1), first);
    let loan = Command::LoanSlice { of: 0, len: 1 };
    expect(&rt, &mut model, loan, Reply::Loaned);
    refuse(&rt, &mut model, 1, LoanError::InternalFailure);
    expect(&rt, &mut model, loan, Reply::Loaned);
    assert!(rt; model.questions() == 3);
}

#[test]
fn a_sample_outlives_the_segment_of_its_message(rt: HostRuntime) {
    let first = publisher(1, AllocationStrategy::BestFit, None);
    let mut model = model(&rt, rt.alloc(), Memory::ample(), first);
    let made = model.carry_out(SUBSCRIBER, None);
    assert!(rt; made.is_ok());
    expect(
        &rt,
        &mut model,
        Command::LoanSlice { of: 0, len: 1 },
        Reply::Loaned,
    );
    expect(
        &rt,
        &mut model,
        Command::WriteAll { of: 2, value: 5 },
        Reply::Done,
    );
    expect(
        &rt,
        &mut model,
        Command::Send { of: 2 },
        Reply::Delivered(1),
    );
    let sample = Reply::Sample(UniquePublisherId::new(1));
    expect(&rt, &mut model, Command::Receive { of: 1 }, sample);
    expect(
        &rt,
        &mut model,
        Command::LoanSlice { of: 0, len: 4 },
        Reply::Loaned,
    );
    expect(
        &rt,
        &mut model,
        Command::WriteAll { of: 6, value: 6 },
        Reply::Done,
    );
    expect(
        &rt,
        &mut model,
        Command::Send { of: 6 },
        Reply::Delivered(1),
    );
    let value = Reply::Cell(Some(5));
    expect(&rt, &mut model, Command::Read { of: 5, at: 0 }, value);
    refuse(&rt, &mut model, usize::MAX, LoanError::InternalFailure);
    lend_and_discard(&rt, &mut model, 4);
}
