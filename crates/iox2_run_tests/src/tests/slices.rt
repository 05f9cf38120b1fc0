//! Runs in which a slice is written cell by cell.
use crate::tests::runs::CREATE_SUBSCRIBER;
use crate::tests::steps::{Step, check, publisher_made, sample_of, subscriber_made};
use iox2_fixtures::slices;
use iox2_machine::{
    BackpressureStrategy, Header, LoanError, ServiceConfig, UniqueNodeId, UniquePublisherId,
};
use iox2_runs::{Command, NewPublisher, Reply};

// A service of slices at this node, which hands out the cells of unwritten ones.
fn service(node_id: u128) -> ServiceConfig {
    ServiceConfig {
        node_id,
        lists_cells: true,
        ..slices()
    }
}

// The command that makes a publisher with one loan, of slices as long as that.
fn create_publisher(longest: usize) -> Command<u64, u8> {
    Command::CreatePublisher(NewPublisher {
        initial_max_slice_len: longest,
        ..NewPublisher::new(1, BackpressureStrategy::DiscardData)
    })
}

// A cell of the loan is written.
fn write(of: usize, at: usize, value: u64, reply: Reply<u64, u8>) -> Step {
    (Command::WriteCell { of, at, value }, reply)
}

// A cell of the loan is read, and has this value if it is written.
fn read(of: usize, at: usize, value: Option<u64>) -> Step {
    (Command::Read { of, at }, Reply::Cell(value))
}

// The header of the loan is read.
fn header(of: usize, node: u128, publisher: u128, number_of_elements: u64) -> Step {
    let header = Header {
        node_id: UniqueNodeId::new(node),
        publisher_id: UniquePublisherId::new(publisher),
        number_of_elements,
    };
    (Command::ReadHeader { of }, Reply::Header(header))
}

const TOO_LONG: Reply<u64, u8> = Reply::LoanRefused(LoanError::ExceedsMaxLoanSize);

#[test]
fn a_slice_is_written_cell_by_cell(rt: HostRuntime) {
    for (node, longest, longer) in [(9, 3, 4), (1 << 100, 37, 38)] {
        let steps = [
            (create_publisher(longest), publisher_made(1)),
            (Command::LoanSlice { of: 0, len: 2 }, Reply::Loaned),
            write(1, 1, 8, Reply::Done),
            (Command::AssumeInit { of: 1 }, Reply::Unwritten),
            write(1, 0, 7, Reply::Done),
            write(1, 2, 9, Reply::Skipped),
            (Command::AssumeInit { of: 1 }, Reply::Done),
            read(1, 1, Some(8)),
            header(1, node, 1, 2),
            (Command::LoanSlice { of: 0, len: longer }, TOO_LONG),
            (Command::Send { of: 1 }, Reply::Delivered(0)),
            (Command::Send { of: 1 }, Reply::Skipped),
        ];
        check(&rt, rt.alloc(), service(node), &steps);
    }
}

// The last cell is written first, and the first one twice.
#[test]
fn cells_are_written_in_any_order_and_again(rt: HostRuntime) {
    let steps = [
        (CREATE_SUBSCRIBER, subscriber_made(1)),
        (create_publisher(5), publisher_made(2)),
        (Command::LoanSlice { of: 1, len: 3 }, Reply::Loaned),
        write(2, 2, 30, Reply::Done),
        write(2, 0, 10, Reply::Done),
        (Command::AssumeInit { of: 2 }, Reply::Unwritten),
        read(2, 1, None),
        write(2, 0, 11, Reply::Done),
        write(2, 1, 20, Reply::Done),
        write(2, 3, 40, Reply::Skipped),
        (Command::AssumeInit { of: 2 }, Reply::Done),
        header(2, 37, 2, 3),
        (Command::LoanSlice { of: 1, len: 6 }, TOO_LONG),
        (Command::Send { of: 2 }, Reply::Delivered(1)),
        (Command::Receive { of: 0 }, sample_of(2)),
        read(14, 0, Some(11)),
        read(14, 1, Some(20)),
        read(14, 2, Some(30)),
        (Command::Read { of: 14, at: 3 }, Reply::Skipped),
    ];
    check(&rt, rt.alloc(), service(37), &steps);
}
