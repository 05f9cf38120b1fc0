//! Whole scripts.
use crate::chance::Chance;
use crate::commands::draw_command;
use crate::moods::{Mood, draw_mood, draw_wish};
use crate::sizes::draw_config;
use iox2_commands::Command;
use iox2_machine::ServiceConfig;
use iox2_model::{Memory, Model, ModelError};
use std::alloc::Global;

/// The settings of a domain, and the commands on it.
#[derive(Drop)]
pub struct Script {
    pub config: ServiceConfig,
    pub commands: Vec<Command<u64, u64>>,
}

/// The script with this number of those that the seed gives, of 1 to `most` commands. A command for
/// which the model has no rule is its last.
pub fn draw_script(
    alloc: Global,
    seed: u64,
    number: u64,
    most: usize,
) -> Result<Script, ModelError> {
    let mut chance = Chance::new(seed, number);
    let config = draw_config(&mut chance);
    let commands = draw_commands(alloc, &mut chance, &config, most)?;
    Ok(Script { config, commands })
}

fn draw_commands(
    alloc: Global,
    chance: &mut Chance,
    config: &ServiceConfig,
    most: usize,
) -> Result<Vec<Command<u64, u64>>, ModelError> {
    let length = draw_length(chance, config, most);
    let patience = draw_patience(chance);
    let mut model = Model::new(alloc, *config, Memory::ample())?;
    let mut commands = Vec::new(alloc);
    let mut mood = first_mood(config);
    for index in 0..length {
        let stays = mood == Mood::Crowd && index < config.max_subscribers;
        if !stays && chance.one_in(patience_of(mood, patience)) {
            mood = draw_mood(chance);
        }
        let wish = draw_wish(chance, mood);
        let command = draw_command(chance, &model, config, wish);
        commands.push(command)?;
        match model.carry_out(command, None) {
            Ok(_) => {}
            Err(ModelError::NoRule) => break,
            Err(refused) => return Err(refused),
        }
    }
    Ok(commands)
}

// Where there may be many subscribers, the script is so long that they get messages.
fn draw_length(chance: &mut Chance, config: &ServiceConfig, most: usize) -> usize {
    if config.max_subscribers > 20 {
        most
    } else {
        chance.up_to(most).max(1)
    }
}

// After how many commands the mood changes, about.
fn draw_patience(chance: &mut Chance) -> usize {
    match chance.below(4) {
        0 => 4,
        1 => 10,
        2 => 25,
        _ => 60,
    }
}

fn first_mood(config: &ServiceConfig) -> Mood {
    if config.max_subscribers > 20 {
        Mood::Crowd
    } else {
        Mood::Ports
    }
}

// Ports are soon as many as there may be.
fn patience_of(mood: Mood, patience: usize) -> usize {
    match mood {
        Mood::Crowd => 2,
        Mood::Ports => patience.min(6),
        _ => patience,
    }
}
