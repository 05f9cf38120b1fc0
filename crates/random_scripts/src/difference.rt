//! Where a run and the model differ.
use iox2_runs::Reply;
use std::io;

/// The first difference of a run from the model.
#[derive(Clone, Copy)]
pub(crate) enum Difference {
    /// In the reply of the command at this position.
    Reply {
        position: usize,
        run: Reply<u64, u64>,
        model: Reply<u64, u64>,
    },
    /// The model has no rule for the command at this position.
    NoRule {
        position: usize,
    },
    /// In how many replies there are.
    Count {
        run: usize,
        model: usize,
    },
    /// In how many connections couldn't be allocated.
    Refusals {
        run: u64,
        model: u64,
    },
}

impl Difference {
    /// How many of this number of replies are the model's, up to the difference.
    pub(crate) fn rank(self, replies: usize) -> usize {
        match self {
            Difference::Reply { position, .. } | Difference::NoRule { position } => position,
            Difference::Count { .. } | Difference::Refusals { .. } => replies,
        }
    }

    /// Prints a line that says it.
    pub(crate) fn print(self, rt: &impl Print) -> io::Result<()> {
        match self {
            Difference::Reply {
                position,
                run,
                model,
            } => {
                let command = position.saturating_add(1);
                println!(rt; "command {command}: run replies {run:?}, and the model {model:?}")
            }
            Difference::NoRule { position } => {
                let command = position.saturating_add(1);
                println!(rt; "command {command}: the model has no rule for it")
            }
            Difference::Count { run, model } => {
                println!(rt; "run gives {run} replies, and the model {model}")
            }
            Difference::Refusals { run, model } => println!(rt;
                "run refuses memory to {run} connections, and the model to {model}"
            ),
        }
    }
}
