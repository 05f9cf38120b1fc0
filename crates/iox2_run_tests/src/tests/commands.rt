use iox2_machine::{LoanError, UniquePublisherId};
use iox2_runs::{Command, Reply};

type Commands = Command<u64, u8>;

type Replies = Reply<u64, u8>;

#[test]
fn commands_compare_by_their_fields(rt: HostRuntime) {
    let send: Commands = Command::SendCopy { of: 2, value: 7 };
    let copy = send;
    assert!(rt; copy == send);
    assert!(rt; send != Command::SendCopy { of: 2, value: 8 });
    assert!(rt; send != Command::Send { of: 2 });
    let header: Commands = Command::WriteHeader { of: 0, value: 1 };
    assert!(rt; header != Command::WriteHeader { of: 0, value: 2 });
}

#[test]
fn replies_compare_by_their_fields(rt: HostRuntime) {
    let made: Replies = Reply::PublisherMade(UniquePublisherId::new(2));
    let copy = made;
    assert!(rt; copy == made);
    assert!(rt; made != Reply::PublisherMade(UniquePublisherId::new(3)));
    assert!(rt; made != Reply::Sample(UniquePublisherId::new(2)));
    let refused: Replies = Reply::LoanRefused(LoanError::OutOfMemory);
    assert!(rt; refused != Reply::LoanRefused(LoanError::ExceedsMaxLoans));
    let read: Replies = Reply::Cell(Some(4));
    assert!(rt; read != Reply::Cell(None));
}
