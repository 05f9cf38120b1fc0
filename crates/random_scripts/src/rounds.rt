//! Script after script.
use crate::comparison::{carry_out_all, compare};
use crate::failure::Failure;
use crate::shortest::shortest;
use crate::tally::Tally;
use iox2_model::Memory;
use random_commands::{Script, draw_script};
use recordings::push_script;

/// How many commands a script has at most.
pub(crate) const MOST_COMMANDS: usize = 200;

/// Runs that many scripts of a seed, and prints how often each kind of reply was met. Fails at the
/// first reply that isn't one that the model has, with the shortest script that fails, and where a
/// kind was never met.
pub(crate) fn run_scripts(rt: &HostRuntime, count: u64, seed: u64) -> Result<(), Failure> {
    let mut tally = Tally::new();
    let mut commands = 0u64;
    for number in 0..count {
        if number % 100 == 0 {
            eprintln!(rt; "{number} of {count} scripts")?;
        }
        match run_script(rt, number, seed, &mut tally) {
            Ok(length) => commands = commands.saturating_add(length),
            Err(failure) => {
                print_advice(rt, number, seed)?;
                return Err(failure);
            }
        }
    }
    println!(rt; "{count} scripts of seed {seed}, {commands} commands")?;
    tally.print(rt)
}

/// Prints one script of a seed, and runs it alone.
pub(crate) fn run_one(rt: &HostRuntime, number: u64, seed: u64) -> Result<(), Failure> {
    let script = draw_script(rt.alloc(), seed, number, MOST_COMMANDS)?;
    print_lines(rt, &script)?;
    let mut tally = Tally::new();
    check(rt, number, seed, &script, &mut tally)?;
    println!(rt; "script {number} of seed {seed} passes")?;
    Ok(())
}

// Draws a script, runs it and counts its replies. Returns how many commands it has.
fn run_script(rt: &HostRuntime, number: u64, seed: u64, tally: &mut Tally) -> Result<u64, Failure> {
    let script = draw_script(rt.alloc(), seed, number, MOST_COMMANDS)?;
    check(rt, number, seed, &script, tally)?;
    Ok(script.commands.len() as u64)
}

// Runs a script and counts its replies. Where they aren't the model's, the shortest script is printed
// that has such a reply.
fn check(
    rt: &HostRuntime,
    number: u64,
    seed: u64,
    script: &Script,
    tally: &mut Tally,
) -> Result<(), Failure> {
    let commands = script.commands.as_slice();
    let ran = carry_out_all(rt.alloc(), script.config, commands)?;
    tally.add(commands, ran.replies.as_slice());
    let comparison = compare(rt.alloc(), script.config, commands, &ran, Memory::ample())?;
    let Some(difference) = comparison.difference else {
        return Ok(());
    };
    println!(rt; "script {number} of seed {seed} fails:")?;
    difference.print(rt)?;
    print_shortest(rt, script)?;
    Err(Failure::Refuted)
}

fn print_shortest(rt: &HostRuntime, script: &Script) -> Result<(), Failure> {
    let found = shortest(rt.alloc(), script)?;
    let count = found.script.commands.len();
    println!(rt; "the shortest such script has {count} commands:")?;
    print_lines(rt, &found.script)?;
    print_difference(rt, &found.script)?;
    if found.is_cut_short {
        println!(rt; "Not all shorter ones were tried, since that takes too long.")?;
    }
    Ok(())
}

// Runs a script, and prints where its replies first aren't the model's.
fn print_difference(rt: &HostRuntime, script: &Script) -> Result<(), Failure> {
    let commands = script.commands.as_slice();
    let ran = carry_out_all(rt.alloc(), script.config, commands)?;
    let comparison = compare(rt.alloc(), script.config, commands, &ran, Memory::ample())?;
    if let Some(difference) = comparison.difference {
        difference.print(rt)?;
    }
    Ok(())
}

/// Prints the lines of a script.
pub(crate) fn print_lines(rt: &HostRuntime, script: &Script) -> Result<(), Failure> {
    let mut text = String::new(rt.alloc());
    push_script(&mut text, &script.config, script.commands.as_slice())?;
    print!(rt; "{text}")?;
    Ok(())
}

// What to do where a script fails.
fn print_advice(rt: &HostRuntime, number: u64, seed: u64) -> Result<(), Failure> {
    println!(rt; "What now: 'tools/random_scripts one {number} {seed}' runs this script alone.")?;
    println!(rt; "Its lines are those of docs/SCRIPT.md, and can be given to pubsub_script.")?;
    println!(rt; "docs/MACHINE.md says whether the library is wrong, or crates/iox2_model.")?;
    Ok(())
}
