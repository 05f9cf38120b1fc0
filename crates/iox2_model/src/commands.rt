//! A command is carried out.
use crate::error::ModelError;
use crate::model::{Model, Outcome};
use crate::views::Thing;
use iox2_commands::{Command, Reply};

impl Model {
    /// Carries out a command, and returns its reply.
    ///
    /// Where the machine leaves a choice and `given` is a reply that it has, this is the reply:
    /// which publisher a subscriber receives from, and with which of two errors memory is refused to
    /// a publisher. `OutOfMemory` where memory for the model is refused, and `NoRule` where the model
    /// is wrong, which leave it unfit for further commands.
    pub fn carry_out(
        &mut self,
        command: Command<u64, u64>,
        given: Option<Reply<u64, u64>>,
    ) -> Result<Reply<u64, u64>, ModelError> {
        let (reply, made) = self.outcome(command, given)?;
        self.made.push(made)?;
        Ok(reply)
    }

    // The reply of a command, and what it made.
    fn outcome(
        &mut self,
        command: Command<u64, u64>,
        given: Option<Reply<u64, u64>>,
    ) -> Result<Outcome, ModelError> {
        match command {
            Command::CreatePublisher(asked) => self.create_publisher(&asked, given),
            Command::CreateSubscriber {
                buffer,
                degradation,
            } => self.create_subscriber(buffer, degradation),
            Command::LoanUninit { of } => self.loan_value(of, None),
            Command::Loan { of } => self.loan_value(of, Some(0)),
            Command::LoanSlice { of, len } => self.loan_slice(of, len),
            Command::Send { of } => self.send_loan(of),
            Command::SendToConnection {
                of,
                channel,
                connection,
            } => self.send_to_connection(of, channel, connection),
            Command::SendCopy { of, value } => self.send_copy(of, value),
            Command::Receive { of } => self.receive(of, given),
            _ => Ok((self.reply_of(command)?, Thing::Nothing)),
        }
    }

    // The reply of a command that makes nothing.
    fn reply_of(&mut self, command: Command<u64, u64>) -> Result<Reply<u64, u64>, ModelError> {
        Ok(match command {
            Command::Nothing => Reply::Done,
            Command::WriteCell { of, at, value } => self.write_cell(of, at, value, false),
            Command::SetPayload { of, at, value } => self.write_cell(of, at, value, true),
            Command::WriteAll { of, value } => self.write_all(of, value),
            Command::AssumeInit { of } => self.assume_init(of),
            Command::WriteHeader { of, value } => self.write_header(of, value),
            Command::Discard { of } => self.discard(of),
            Command::Retry { of, .. } => self.retry(of)?,
            Command::GiveUp { of } => self.give_up(of)?,
            Command::Update { of } => self.update(of)?,
            Command::HasSamples { of } => self.has_samples(of)?,
            Command::Read { of, at } => self.read(of, at),
            Command::ReadHeader { of } => self.read_header(of),
            Command::ReadUserHeader { of } => self.read_user_header(of),
            Command::Release { of } => self.release(of)?,
            Command::Close { of } => self.close(of)?,
            Command::ConnectionPlace { of, receiver } => self.connection_place(of, receiver),
            Command::PublisherChannel {
                of,
                channel,
                connection,
                call,
            } => self.publisher_channel(of, channel, connection, call)?,
            Command::SubscriberChannel { of, channel, call } => {
                self.subscriber_channel(of, channel, call)?
            }
            _ => return Err(ModelError::NoRule),
        })
    }

    fn update(&mut self, of: usize) -> Result<Reply<u64, u64>, ModelError> {
        let failure = if let Some(p) = self.unblocked_at(of) {
            self.update_publisher(p)?
        } else if let Some(q) = self.subscriber_at(of) {
            self.update_subscriber(q)?
        } else {
            return Ok(Reply::Skipped);
        };
        match failure {
            None => Ok(Reply::Done),
            Some(failure) => Ok(Reply::UpdateRefused(failure)),
        }
    }
}
