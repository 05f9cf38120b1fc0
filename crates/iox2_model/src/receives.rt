//! A subscriber receives, and messages are read.
use crate::error::ModelError;
use crate::model::{Model, Outcome};
use crate::records::Entry;
use crate::views::Thing;
use iox2_commands::Reply;
use iox2_machine::{
    ConnectionFailure, Header, ReceiveError, UniqueNodeId, UniquePublisherId, ZeroCopyCreationError,
};

impl Model {
    // A departed publisher couldn't be kept among the expired ones.
    pub(crate) fn expired_buffer_full() -> ConnectionFailure {
        ConnectionFailure::FailedToEstablishConnection(
            ZeroCopyCreationError::ExpiredConnectionBufferFull,
        )
    }

    // Connections are updated first. Where several publishers may be received from, it is the one
    // that `given` names if that is one of them.
    pub(crate) fn receive(
        &mut self,
        of: usize,
        given: Option<Reply<u64, u64>>,
    ) -> Result<Outcome, ModelError> {
        if self.config.units_per_element != 1 {
            return Ok((Reply::Skipped, Thing::Nothing));
        }
        let Some(q) = self.subscriber_at(of) else {
            return Ok((Reply::Skipped, Thing::Nothing));
        };
        if let Some(failure) = self.update_subscriber(q)? {
            let error = ReceiveError::ConnectionFailure(failure);
            return Ok((Reply::ReceiveRefused(error), Thing::Nothing));
        }
        match self.choose_publisher(q, given)? {
            Some(p) => self.take_sample(p, q),
            None if self.has_any_data(q)? => Ok((
                Reply::ReceiveRefused(ReceiveError::ExceedsMaxBorrows),
                Thing::Nothing,
            )),
            None => Ok((Reply::NoSample, Thing::Nothing)),
        }
    }

    fn take_sample(&mut self, p: usize, q: usize) -> Result<Outcome, ModelError> {
        let message = self.mailboxes.made(p, q)?.borrow_first()?;
        let sample = Thing::Sample {
            publisher: p,
            subscriber: q,
            message,
        };
        Ok((sample_of(p), sample))
    }

    // The publisher to receive from: a departed one where there is such a one, and else any other.
    fn choose_publisher(
        &self,
        q: usize,
        given: Option<Reply<u64, u64>>,
    ) -> Result<Option<usize>, ModelError> {
        let Some(subscriber) = self.subscribers.get(q) else {
            return Ok(None);
        };
        let departed = self.choose_among(q, subscriber.expired.as_slice(), &given);
        if departed.is_some() {
            return Ok(departed);
        }
        let connected = subscriber.connected(self.alloc)?;
        let chosen = self.choose_among(q, connected.as_slice(), &given);
        Ok(chosen)
    }

    // One of the publishers from which something may be received.
    fn choose_among(
        &self,
        q: usize,
        publishers: &[usize],
        given: &Option<Reply<u64, u64>>,
    ) -> Option<usize> {
        let limit = self.config.subscriber_max_borrowed_samples;
        let mut chosen = None;
        for p in publishers {
            if self.mailboxes.can_receive(*p, q, limit)
                && (chosen.is_none() || *given == Some(sample_of(*p)))
            {
                chosen = Some(*p);
            }
        }
        chosen
    }

    // Something waits from a publisher with which the subscriber is connected.
    fn has_any_data(&self, q: usize) -> Result<bool, ModelError> {
        let Some(subscriber) = self.subscribers.get(q) else {
            return Ok(false);
        };
        let sources = subscriber.sources(self.alloc)?;
        Ok(sources.iter().any(|p| self.mailboxes.has_data(*p, q)))
    }

    pub(crate) fn has_samples(&mut self, of: usize) -> Result<Reply<u64, u64>, ModelError> {
        let Some(q) = self.subscriber_at(of) else {
            return Ok(Reply::Skipped);
        };
        match self.update_subscriber(q)? {
            None => Ok(Reply::Has(self.has_any_data(q)?)),
            Some(failure) => Ok(Reply::UpdateRefused(failure)),
        }
    }

    // ---- a sample or a loan is read

    pub(crate) fn read(&self, of: usize, at: usize) -> Reply<u64, u64> {
        match self.cell_at(of, at) {
            Some(cell) => Reply::Cell(cell),
            None => Reply::Skipped,
        }
    }

    pub(crate) fn read_header(&self, of: usize) -> Reply<u64, u64> {
        match self.headers_at(of) {
            Some(headers) => Reply::Header(Header {
                node_id: UniqueNodeId::new(self.config.node_id),
                publisher_id: UniquePublisherId::new(headers.publisher as u128),
                number_of_elements: headers.len as u64,
            }),
            None => Reply::Skipped,
        }
    }

    pub(crate) fn read_user_header(&self, of: usize) -> Reply<u64, u64> {
        match self.headers_at(of) {
            Some(headers) => Reply::UserHeader(headers.user_header),
            None => Reply::Skipped,
        }
    }

    // A cell of a loan, or a value of a sample's message, where it has one there.
    fn cell_at(&self, of: usize, at: usize) -> Option<Option<u64>> {
        if let Some(message) = self.any_loan_at(of) {
            return match self.loans.get(message) {
                Some(loan) => loan.cells.get(at).copied(),
                None => None,
            };
        }
        let Some(entry) = self.entry_at(of) else {
            return None;
        };
        match entry.values.get(at) {
            Some(value) => Some(Some(*value)),
            None => None,
        }
    }

    // What the headers of a loan or of a sample's message say.
    fn headers_at(&self, of: usize) -> Option<Headers> {
        if let Some(message) = self.any_loan_at(of) {
            return match self.loans.get(message) {
                Some(loan) => Some(Headers {
                    publisher: loan.publisher,
                    user_header: loan.user_header,
                    len: loan.cells.len(),
                }),
                None => None,
            };
        }
        let Some(entry) = self.entry_at(of) else {
            return None;
        };
        Some(Headers {
            publisher: entry.publisher,
            user_header: entry.user_header,
            len: entry.values.len(),
        })
    }

    // The message of the sample.
    fn entry_at(&self, of: usize) -> Option<&Entry> {
        match self.sample_at(of) {
            Some((_, _, message)) => self.entries.get(message),
            None => None,
        }
    }

    /// How many cells the loan has, or values the sample's message, that the command at this position
    /// made; 0 where it made none that is live.
    pub fn length_at(&self, of: usize) -> usize {
        match self.headers_at(of) {
            Some(headers) => headers.len,
            None => 0,
        }
    }
}

// What the headers of a message say.
#[derive(Clone, Copy)]
struct Headers {
    publisher: usize,
    user_header: u64,
    len: usize,
}

// The reply that a sample of this publisher was received.
fn sample_of(p: usize) -> Reply<u64, u64> {
    Reply::Sample(UniquePublisherId::new(p as u128))
}
