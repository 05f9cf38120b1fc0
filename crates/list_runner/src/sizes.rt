//! The sizes of a service.
use crate::failure::Failure;
use iox2_pubsub::ServiceConfig;

/// The settings of a service without overflow, and the limit of loans of its publisher.
#[derive(Clone, Copy)]
pub(crate) struct Sizes {
    pub(crate) config: ServiceConfig,
    pub(crate) loans: usize,
}

impl Sizes {
    /// The sizes that six numbers say, in this order: publishers, subscribers, buffer, borrowed
    /// messages, history, loans.
    pub(crate) fn parse(words: &[String]) -> Result<Sizes, Failure> {
        let [publishers, subscribers, buffer, borrowed, history, loans] = words else {
            return Err(Failure::Usage);
        };
        let config = ServiceConfig {
            max_publishers: number(publishers)?,
            max_subscribers: number(subscribers)?,
            subscriber_max_buffer_size: number(buffer)?,
            subscriber_max_borrowed_samples: number(borrowed)?,
            history_size: number(history)?,
            enable_safe_overflow: false,
            ..ServiceConfig::new(1)
        };
        let loans = number(loans)?;
        if config.max_publishers == 0 || config.max_subscribers == 0 || loans == 0 {
            return Err(Failure::NothingToFill);
        }
        Ok(Sizes { config, loans })
    }
}

// The number that a word says. `NoNumber` where it says none, or one that doesn't fit.
fn number(word: &str) -> Result<usize, Failure> {
    word.parse().map_err(|_| Failure::NoNumber)
}
