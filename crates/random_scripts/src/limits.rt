//! The limits of a script: those of its settings, and those of the ports that it makes.
use crate::failure::Failure;
use iox2_pubsub::ServiceConfig;
use iox2_runs::Command;
use random_commands::Script;
use std::alloc::Global;

/// A limit of a script.
#[derive(Clone, Copy)]
pub(crate) enum Limit {
    Publishers,
    Subscribers,
    Buffer,
    Borrowed,
    History,
    Expired,
    /// How many channels a connection has beside the first one.
    FurtherChannels,
    /// The loans of the publisher, or the buffer of the subscriber, that the command at this position
    /// makes.
    Port(usize),
    /// The slots that the override of the publisher asks for that the command at this position makes.
    Slots(usize),
}

/// The limits of settings.
pub(crate) const LIMITS: [Limit; 7] = [
    Limit::Publishers,
    Limit::Subscribers,
    Limit::Buffer,
    Limit::Borrowed,
    Limit::History,
    Limit::Expired,
    Limit::FurtherChannels,
];

impl Limit {
    /// What the limit is: 0 where the command makes no port with a limit of its own, or with an
    /// override.
    pub(crate) fn of(self, script: &Script) -> usize {
        let config = &script.config;
        match self {
            Limit::Publishers => config.max_publishers,
            Limit::Subscribers => config.max_subscribers,
            Limit::Buffer => config.subscriber_max_buffer_size,
            Limit::Borrowed => config.subscriber_max_borrowed_samples,
            Limit::History => config.history_size,
            Limit::Expired => config.subscriber_expired_connection_buffer,
            Limit::FurtherChannels => config.number_of_channels.saturating_sub(1),
            Limit::Port(position) => script.commands.get(position).map_or(0, own_limit),
            Limit::Slots(position) => script.commands.get(position).map_or(0, own_slots),
        }
    }

    /// The script with this limit.
    pub(crate) fn set(
        self,
        alloc: Global,
        script: &Script,
        value: usize,
    ) -> Result<Script, Failure> {
        let mut commands = Vec::from_slice(alloc, script.commands.as_slice())?;
        match self {
            Limit::Port(position) => {
                if let Some(command) = commands.get_mut(position) {
                    set_own_limit(command, value);
                }
            }
            Limit::Slots(position) => {
                if let Some(command) = commands.get_mut(position) {
                    set_own_slots(command, value);
                }
            }
            _ => {}
        }
        Ok(Script {
            config: self.set_in(script.config, value),
            commands,
        })
    }

    // The settings with this limit.
    fn set_in(self, config: ServiceConfig, value: usize) -> ServiceConfig {
        let mut config = config;
        match self {
            Limit::Publishers => config.max_publishers = value,
            Limit::Subscribers => config.max_subscribers = value,
            Limit::Buffer => config.subscriber_max_buffer_size = value,
            Limit::Borrowed => config.subscriber_max_borrowed_samples = value,
            Limit::History => config.history_size = value,
            Limit::Expired => config.subscriber_expired_connection_buffer = value,
            Limit::FurtherChannels => config.number_of_channels = value.saturating_add(1),
            Limit::Port(_) | Limit::Slots(_) => {}
        }
        config
    }
}

// The limit of the port that the command makes.
fn own_limit(command: &Command<u64, u64>) -> usize {
    match command {
        Command::CreatePublisher(asked) => asked.loans,
        Command::CreateSubscriber {
            buffer: Some(size),
            ..
        } => *size,
        _ => 0,
    }
}

// How many slots the override asks for of the publisher that the command makes.
fn own_slots(command: &Command<u64, u64>) -> usize {
    match command {
        Command::CreatePublisher(asked) => asked.override_slots.unwrap_or(0),
        _ => 0,
    }
}

// Such an override asks for that many.
fn set_own_slots(command: &mut Command<u64, u64>, value: usize) {
    if let Command::CreatePublisher(asked) = command {
        asked.override_slots = asked.override_slots.map(|_| value);
    }
}

// The port that the command makes gets this limit.
fn set_own_limit(command: &mut Command<u64, u64>, value: usize) {
    match command {
        Command::CreatePublisher(asked) => asked.loans = value,
        Command::CreateSubscriber {
            buffer: Some(size),
            ..
        } => *size = value,
        _ => {}
    }
}
