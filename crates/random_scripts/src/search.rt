//! Tries of scripts that may fail. They end after a given number of commands.
use crate::comparison::first_difference;
use crate::failure::Failure;
use iox2_model::ModelError;
use random_commands::{Budget, Script, without};
use std::alloc::Global;

/// Tries scripts, until that many commands were carried out.
#[derive(Drop)]
pub(crate) struct Search {
    alloc: Global,
    budget: Budget,
}

impl Search {
    /// A search that carries out at most `most` commands.
    pub(crate) fn new(alloc: Global, most: usize) -> Search {
        Search {
            alloc,
            budget: Budget::new(most),
        }
    }

    pub(crate) fn alloc(&self) -> Global {
        self.alloc
    }

    /// Whether a script wasn't tried, since too few commands were left for it.
    pub(crate) fn is_over(&self) -> bool {
        self.budget.is_over()
    }

    /// The script where it fails, up to the first reply that isn't the model's. None where it doesn't,
    /// or where the search is over.
    pub(crate) fn failing(&mut self, script: Script) -> Result<Option<Script>, Failure> {
        let count = script.commands.len();
        let Some(needed) = self.commands_to_fail(&script)? else {
            return Ok(None);
        };
        if needed >= count {
            return Ok(Some(script));
        }
        let cut = self.without_lines(&script, needed, count)?;
        if self.commands_to_fail(&cut)?.is_some() {
            Ok(Some(cut))
        } else {
            Ok(Some(script))
        }
    }

    /// The script without `count` of its lines from one on.
    pub(crate) fn without_lines(
        &self,
        script: &Script,
        from: usize,
        count: usize,
    ) -> Result<Script, Failure> {
        Ok(Script {
            config: script.config,
            commands: without(self.alloc, script.commands.as_slice(), from, count)?,
        })
    }

    // How many commands of the script show that it fails. Where memory is refused, as to a loan that
    // fits only now that limits are smaller, it counts as one that passes.
    fn commands_to_fail(&mut self, script: &Script) -> Result<Option<usize>, Failure> {
        let commands = script.commands.as_slice();
        if !self.budget.takes(commands.len()) {
            return Ok(None);
        }
        match first_difference(self.alloc, script.config, commands) {
            Ok(None) => Ok(None),
            Ok(Some(difference)) => Ok(Some(difference.rank(commands.len()).saturating_add(1))),
            Err(Failure::OutOfMemory(_) | Failure::Model(ModelError::OutOfMemory(_))) => Ok(None),
            Err(failure) => Err(failure),
        }
    }
}
