//! The replies of a run, and what the model says of them.
use crate::difference::Difference;
use crate::failure::Failure;
use iox2_model::{Memory, Model, ModelError};
use iox2_pubsub::{Domain, ServiceConfig};
use iox2_runs::{Command, Reply, run};
use std::alloc::{AllocError, Global};

/// What became of the commands of a script.
#[derive(Drop)]
pub(crate) struct Ran {
    pub(crate) replies: Vec<Reply<u64, u64>>,
    /// How many connections of the domain couldn't be allocated.
    pub(crate) refused_connections: u64,
}

/// Carries out the commands on a new domain.
pub(crate) fn carry_out_all(
    alloc: Global,
    config: ServiceConfig,
    commands: &[Command<u64, u64>],
) -> Result<Ran, Failure> {
    let list = Vec::from_slice(alloc, commands)?;
    let Ok(mut domain) = Domain::<u64, u64>::new(alloc, config) else {
        return Err(Failure::OutOfMemory(AllocError));
    };
    match run(alloc, &mut domain, list) {
        Ok(replies) => Ok(Ran {
            replies,
            refused_connections: domain.refused_connections(),
        }),
        Err(given) => Err(why_handed_back(given.as_slice(), commands)),
    }
}

// Why `run` hands commands back: it was refused memory, and these are the commands that it was given.
fn why_handed_back(given: &[Command<u64, u64>], commands: &[Command<u64, u64>]) -> Failure {
    if given == commands {
        Failure::OutOfMemory(AllocError)
    } else {
        Failure::OtherCommands
    }
}

/// What the model says of a run.
#[derive(Clone, Copy)]
pub(crate) struct Comparison {
    pub(crate) difference: Option<Difference>,
    /// How often a port, a connection or a segment asked the model for memory, up to the difference.
    pub(crate) questions: usize,
    /// Whether the model refused memory to a segment.
    pub(crate) has_refused_segment: bool,
}

/// Carries the commands out by the model with such a memory, and compares each reply and the number
/// of connections that were refused memory.
pub(crate) fn compare(
    alloc: Global,
    config: ServiceConfig,
    commands: &[Command<u64, u64>],
    ran: &Ran,
    memory: Memory,
) -> Result<Comparison, Failure> {
    let mut model = Model::new(alloc, config, memory)?;
    let mut difference = different_reply(&mut model, commands, ran.replies.as_slice())?;
    if difference.is_none() {
        difference = different_count(&model, commands.len(), ran);
    }
    Ok(Comparison {
        difference,
        questions: model.questions(),
        has_refused_segment: model.has_refused_segment(),
    })
}

// The first reply that isn't the model's.
fn different_reply(
    model: &mut Model,
    commands: &[Command<u64, u64>],
    replies: &[Reply<u64, u64>],
) -> Result<Option<Difference>, Failure> {
    for position in 0..commands.len() {
        if let (Some(command), Some(reply)) = (commands.get(position), replies.get(position)) {
            let run = *reply;
            match model.carry_out(*command, Some(run)) {
                Ok(model) if model == run => {}
                Ok(model) => {
                    return Ok(Some(Difference::Reply {
                        position,
                        run,
                        model,
                    }));
                }
                Err(ModelError::NoRule) => return Ok(Some(Difference::NoRule { position })),
                Err(refused) => return Err(Failure::Model(refused)),
            }
        }
    }
    Ok(None)
}

// Whether there are as many replies and refused connections as the model has.
fn different_count(model: &Model, commands: usize, ran: &Ran) -> Option<Difference> {
    let run = ran.replies.len();
    if run != commands {
        return Some(Difference::Count {
            run,
            model: commands,
        });
    }
    let run = ran.refused_connections;
    let model = model.refused_connections();
    if run != model {
        return Some(Difference::Refusals { run, model });
    }
    None
}

/// Runs the commands, and says where what becomes of them first isn't what the model says.
pub(crate) fn first_difference(
    alloc: Global,
    config: ServiceConfig,
    commands: &[Command<u64, u64>],
) -> Result<Option<Difference>, Failure> {
    let ran = carry_out_all(alloc, config, commands)?;
    Ok(compare(alloc, config, commands, &ran, Memory::ample())?.difference)
}
