//! A publisher's strategy as text, which `serde` writes and reads. It is a crate of its own, so that
//! nobody who needs no such text loads `serde`.
#![tactic(auto)]

#[cfg(test)]
mod tests;

ghost use Rattle.std.specs.Prelude.{◌≡◌};
ghost use Rattle.iox2_strategy_words.specs.Words.{strategy_name, strategy_with_word, word_for};

use iox2_machine::BackpressureStrategy;
use serde::{Described, Deserialize, Serialize, Serializer};

/// A strategy, as `serde` writes and reads it: by its name. Any other text is refused.
///
/// iceoryx2's `Serialize` and `Deserialize` of `BackpressureStrategy`
/// (`src/port/backpressure_strategy.rs`), which no type of another crate can have here.
#[derive(Debug, Clone, Copy, PartialEq, Eq, Deserialize)]
pub enum StrategyWord {
    /// `BackpressureStrategy::RetryUntilDelivered`.
    RetryUntilDelivered,
    /// `BackpressureStrategy::DiscardData`.
    DiscardData,
}

impl StrategyWord {
    /// The word of this strategy.
    pub fn of(strategy: BackpressureStrategy) -> Self
        ensures { result ≡ word_for strategy }
    {
        match strategy {
            BackpressureStrategy::RetryUntilDelivered => StrategyWord::RetryUntilDelivered,
            BackpressureStrategy::DiscardData => StrategyWord::DiscardData,
        }
    }

    /// The strategy with this word.
    pub fn strategy(self) -> BackpressureStrategy
        ensures { result ≡ strategy_with_word self }
    {
        match self {
            StrategyWord::RetryUntilDelivered => BackpressureStrategy::RetryUntilDelivered,
            StrategyWord::DiscardData => BackpressureStrategy::DiscardData,
        }
    }

    fn name(&self) -> &'static str
        ensures { result.now ≡ strategy_name self.now }
    {
        match self {
            StrategyWord::RetryUntilDelivered => "RetryUntilDelivered",
            StrategyWord::DiscardData => "DiscardData",
        }
    }
}

/// One event: the name, as a text.
impl Described for StrategyWord {
    ghost use Rattle.serde.specs.Event.{Logs, text};

    ghost writes = { λ word old new. Logs old new (text (strategy_name word)) };
}

impl Serialize for StrategyWord {
    fn serialize<S: Serializer>(&self, out: &mut S) -> Result<(), S::Error> {
        out.str(self.name())
    }
}
