//! How often each word was carried out, and how often it was skipped.
use crate::failure::Failure;
use iox2_runs::{Command, PublisherChannelCall, Reply, SubscriberChannelCall};

// The words that exist. Those of the first three are never skipped.
const WORDS: [&str; 33] = [
    "Nothing",
    "CreatePublisher",
    "CreateSubscriber",
    "LoanUninit",
    "Loan",
    "LoanSlice",
    "WriteCell",
    "WriteAll",
    "AssumeInit",
    "WriteHeader",
    "SetPayload",
    "Send",
    "SendCopy",
    "Discard",
    "Retry",
    "GiveUp",
    "Update",
    "Receive",
    "HasSamples",
    "Read",
    "ReadHeader",
    "ReadUserHeader",
    "Release",
    "Close",
    "SendToConnection",
    "ConnectionPlace",
    "PublisherChannel HasState",
    "PublisherChannel HasDisconnectHint",
    "PublisherChannel Close",
    "SubscriberChannel SetState",
    "SubscriberChannel SomeHasState",
    "SubscriberChannel Close",
    "SubscriberChannel SetDisconnectHint",
];

// How many words are never skipped.
const NEVER_SKIPPED: usize = 3;

/// How often each word was carried out, and how often it was skipped.
#[derive(Drop)]
pub(crate) struct WordTally {
    done: [u64; 33],
    skipped: [u64; 33],
}

impl WordTally {
    pub(crate) fn new() -> WordTally {
        WordTally {
            done: [0; 33],
            skipped: [0; 33],
        }
    }

    pub(crate) fn add(&mut self, command: &Command<u64, u64>, reply: &Reply<u64, u64>) {
        let word = position_of(command);
        if *reply == Reply::Skipped {
            count_up(&mut self.skipped, word);
        } else if !is_refusal(reply) {
            count_up(&mut self.done, word);
        }
    }

    /// Prints a line for each word. Fails where one was never carried out, or never skipped.
    pub(crate) fn print(&self, rt: &impl Print) -> Result<(), Failure> {
        let mut all_met = true;
        for word in 0..WORDS.len() {
            if let (Some(name), Some(done), Some(skipped)) = (
                WORDS.get(word),
                self.done.get(word),
                self.skipped.get(word),
            ) {
                println!(rt; "{done} {name} carried out, {skipped} skipped")?;
                if *done == 0 || (*skipped == 0 && word >= NEVER_SKIPPED) {
                    all_met = false;
                }
            }
        }
        if all_met {
            Ok(())
        } else {
            Err(Failure::NeverMet)
        }
    }
}

fn count_up(counts: &mut [u64; 33], word: usize) {
    if let Some(count) = counts.get_mut(word) {
        *count = count.saturating_add(1);
    }
}

// Whether the word didn't do what it is for.
fn is_refusal(reply: &Reply<u64, u64>) -> bool {
    match *reply {
        Reply::PublisherRefused(_)
        | Reply::SubscriberRefused(_)
        | Reply::LoanRefused(_)
        | Reply::Unwritten
        | Reply::Blocked
        | Reply::SendRefused(_)
        | Reply::UpdateRefused(_)
        | Reply::NoSample
        | Reply::ReceiveRefused(_) => true,
        _ => false,
    }
}

// The position of the command's word.
fn position_of(command: &Command<u64, u64>) -> usize {
    match *command {
        Command::Nothing => 0,
        Command::CreatePublisher(_) => 1,
        Command::CreateSubscriber { .. } => 2,
        Command::LoanUninit { .. } => 3,
        Command::Loan { .. } => 4,
        Command::LoanSlice { .. } => 5,
        Command::WriteCell { .. } => 6,
        Command::WriteAll { .. } => 7,
        Command::AssumeInit { .. } => 8,
        Command::WriteHeader { .. } => 9,
        Command::SetPayload { .. } => 10,
        Command::Send { .. } => 11,
        Command::SendCopy { .. } => 12,
        Command::Discard { .. } => 13,
        Command::Retry { .. } => 14,
        Command::GiveUp { .. } => 15,
        Command::Update { .. } => 16,
        Command::Receive { .. } => 17,
        Command::HasSamples { .. } => 18,
        Command::Read { .. } => 19,
        Command::ReadHeader { .. } => 20,
        Command::ReadUserHeader { .. } => 21,
        Command::Release { .. } => 22,
        Command::Close { .. } => 23,
        Command::SendToConnection { .. } => 24,
        Command::ConnectionPlace { .. } => 25,
        Command::PublisherChannel { call, .. } => match call {
            PublisherChannelCall::HasState { .. } => 26,
            PublisherChannelCall::HasDisconnectHint { .. } => 27,
            PublisherChannelCall::Close { .. } => 28,
        },
        Command::SubscriberChannel { call, .. } => match call {
            SubscriberChannelCall::SetState { .. } => 29,
            SubscriberChannelCall::SomeHasState { .. } => 30,
            SubscriberChannelCall::Close { .. } => 31,
            SubscriberChannelCall::SetDisconnectHint { .. } => 32,
        },
    }
}
