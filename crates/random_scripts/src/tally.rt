//! How often each kind of reply was met.
use crate::failure::Failure;
use crate::word_tally::WordTally;
use iox2_pubsub::{
    LoanError, PublisherCreateError, ReceiveError, SendError, SubscriberCreateError,
};
use iox2_runs::{Command, Reply};

// The kinds of replies that the words can give with ample memory.
const KINDS: [&str; 38] = [
    "Done",
    "Skipped",
    "PublisherMade",
    "PublisherRefused(ExceedsMaxSupportedPublishers)",
    "PublisherRefused(UnableToCreateDataSegment)",
    "SubscriberMade",
    "SubscriberRefused(ExceedsMaxSupportedSubscribers)",
    "SubscriberRefused(BufferSizeExceedsMaxSupportedBufferSizeOfService)",
    "Loaned",
    "LoanRefused(ExceedsMaxLoans)",
    "LoanRefused(ExceedsMaxLoanSize)",
    "LoanRefused(OutOfMemory)",
    "LoanRefused(InternalFailure)",
    "Delivered to none",
    "Delivered to one",
    "Delivered to 2 to 64",
    "Delivered to 65 or more",
    "Blocked",
    "SendRefused(ConnectionBrokenSinceSenderNoLongerExists)",
    "SendRefused(LoanError(ExceedsMaxLoans))",
    "SendRefused(LoanError(OutOfMemory))",
    "SendRefused(UnableToDeliver)",
    "UpdateRefused",
    "Sample",
    "NoSample",
    "ReceiveRefused(ExceedsMaxBorrows)",
    "ReceiveRefused(ConnectionFailure)",
    "Has(false)",
    "Has(true)",
    "Cell(None)",
    "Cell(Some)",
    "Unwritten",
    "Header",
    "UserHeader",
    "WereClosed(false)",
    "WereClosed(true)",
    "Place(None)",
    "Place(Some)",
];

// The position of the count of all other replies, which no command should have.
const OTHER: usize = 38;

/// How often each kind of reply was met.
#[derive(Drop)]
pub(crate) struct Tally {
    counts: [u64; 39],
    words: WordTally,
}

impl Tally {
    pub(crate) fn new() -> Tally {
        Tally {
            counts: [0; 39],
            words: WordTally::new(),
        }
    }

    /// Counts the replies of these commands.
    pub(crate) fn add(&mut self, commands: &[Command<u64, u64>], replies: &[Reply<u64, u64>]) {
        for position in 0..commands.len() {
            if let (Some(command), Some(reply)) = (commands.get(position), replies.get(position)) {
                self.words.add(command, reply);
                if let Some(count) = self.counts.get_mut(kind_of(reply)) {
                    *count = count.saturating_add(1);
                }
            }
        }
    }

    /// Prints a line for each kind and each word. Fails where a kind was never met, where a reply is of
    /// none, or where a word was never carried out or never skipped.
    pub(crate) fn print(&self, rt: &impl Print) -> Result<(), Failure> {
        let mut all_met = true;
        for kind in 0..OTHER {
            if let (Some(name), Some(count)) = (KINDS.get(kind), self.counts.get(kind)) {
                println!(rt; "{count} {name}")?;
                if *count == 0 {
                    all_met = false;
                }
            }
        }
        let words = self.words.print(rt);
        if self.counts.get(OTHER).is_some_and(|count| *count > 0) {
            Err(Failure::NoKind)
        } else if all_met {
            words
        } else {
            Err(Failure::NeverMet)
        }
    }
}

// The position of the reply's kind.
fn kind_of(reply: &Reply<u64, u64>) -> usize {
    match *reply {
        Reply::Done => 0,
        Reply::Skipped => 1,
        Reply::PublisherMade(_) => 2,
        Reply::PublisherRefused(PublisherCreateError::ExceedsMaxSupportedPublishers) => 3,
        Reply::PublisherRefused(PublisherCreateError::UnableToCreateDataSegment) => 4,
        Reply::SubscriberMade(_) => 5,
        Reply::SubscriberRefused(SubscriberCreateError::ExceedsMaxSupportedSubscribers) => 6,
        Reply::SubscriberRefused(
            SubscriberCreateError::BufferSizeExceedsMaxSupportedBufferSizeOfService,
        ) => 7,
        Reply::Loaned => 8,
        Reply::LoanRefused(LoanError::ExceedsMaxLoans) => 9,
        Reply::LoanRefused(LoanError::ExceedsMaxLoanSize) => 10,
        Reply::LoanRefused(LoanError::OutOfMemory) => 11,
        Reply::LoanRefused(LoanError::InternalFailure) => 12,
        Reply::Delivered(0) => 13,
        Reply::Delivered(1) => 14,
        Reply::Delivered(2..=64) => 15,
        Reply::Delivered(_) => 16,
        Reply::Blocked => 17,
        Reply::SendRefused(SendError::ConnectionBrokenSinceSenderNoLongerExists) => 18,
        Reply::SendRefused(SendError::LoanError(LoanError::ExceedsMaxLoans)) => 19,
        Reply::SendRefused(SendError::LoanError(LoanError::OutOfMemory)) => 20,
        Reply::SendRefused(SendError::UnableToDeliver) => 21,
        _ => kind_of_use(reply),
    }
}

// The same for what is received and read.
fn kind_of_use(reply: &Reply<u64, u64>) -> usize {
    match *reply {
        Reply::UpdateRefused(_) => 22,
        Reply::Sample(_) => 23,
        Reply::NoSample => 24,
        Reply::ReceiveRefused(ReceiveError::ExceedsMaxBorrows) => 25,
        Reply::ReceiveRefused(ReceiveError::ConnectionFailure(_)) => 26,
        Reply::Has(false) => 27,
        Reply::Has(true) => 28,
        Reply::Cell(None) => 29,
        Reply::Cell(Some(_)) => 30,
        Reply::Unwritten => 31,
        Reply::Header(_) => 32,
        Reply::UserHeader(_) => 33,
        Reply::WereClosed(false) => 34,
        Reply::WereClosed(true) => 35,
        Reply::Place(None) => 36,
        Reply::Place(Some(_)) => 37,
        _ => OTHER,
    }
}
