use crate::StrategyWord;
use iox2_machine::BackpressureStrategy;
use std::alloc::Global;
use std::process::Abort;
use std::test::Fail;

// The strategy is written as this, and that is read as the strategy.
fn assert_written(
    rt: &impl Abort,
    alloc: Global,
    strategy: BackpressureStrategy,
    text: &str,
) -> Result<(), Fail> {
    let written = serde_json::to_string(alloc, &StrategyWord::of(strategy))?;
    assert_eq!(rt; written.as_str(), text);
    let read: StrategyWord = serde_json::from_str(alloc, written.as_str())?;
    assert_eq!(rt; read.strategy(), strategy);
    Ok(())
}

#[test]
fn a_strategy_is_written_and_read_by_its_name(rt: HostRuntime) -> Result<(), Fail> {
    let discard = BackpressureStrategy::DiscardData;
    assert_written(&rt, rt.alloc(), discard, "\"DiscardData\"")?;
    let retry = BackpressureStrategy::RetryUntilDelivered;
    assert_written(&rt, rt.alloc(), retry, "\"RetryUntilDelivered\"")
}

#[test]
fn another_word_is_refused_and_not_for_memory(rt: HostRuntime) {
    let read: Result<StrategyWord, serde_json::Error> = serde_json::from_str(
        rt.alloc(),
        "\"Discard\"",
    );
    match read {
        Ok(_) => panic!(rt; "a word was read"),
        Err(error) => assert!(rt; error.is_data()),
    }
}
