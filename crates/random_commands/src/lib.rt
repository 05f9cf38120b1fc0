//! Random scripts: settings and lists of commands that follow the model, so that most commands name
//! something fitting.
#![tactic(auto)]

mod budget;
mod chance;
mod channels;
mod commands;
mod fewer;
mod moods;
mod positions;
mod scripts;
mod sizes;

pub use budget::Budget;
pub use fewer::{COUNTS, MOST_PHASES, without};
pub use scripts::{Script, draw_script};
