//! Records what is called on a domain, runs that again on a new one, and prints the recording.
#![tactic(auto)]

mod calls;
mod failure;
mod record;
mod replay;

use calls::{Call, calls, calls_thrice, service, slices};
use failure::Failure;
use iox2_machine::ServiceConfig;
use record::record;
use recordings::{Recording, save};
use replay::count_alike;

fn main(rt: HostRuntime) -> Result<(), Failure> {
    record_all(&rt)?;
    record_some(&rt)?;
    record_without_cells(&rt)
}

// Records all calls and prints the recording.
fn record_all(rt: &HostRuntime) -> Result<(), Failure> {
    let (commands, replies, _missed) = record(rt.alloc(), service(), &calls(), calls().len())?;
    let recording = Recording::of(
        rt.alloc(),
        service(),
        commands.as_slice(),
        replies.as_slice(),
    )?;
    let text = save(rt.alloc(), &recording)?;
    print!(rt; "{text}")?;
    Ok(())
}

// Records calls with room for all of them, and for the first ones alone.
fn record_some(rt: &HostRuntime) -> Result<(), Failure> {
    let thrice = calls_thrice(rt.alloc())?;
    print_kept(rt, service(), &calls(), calls().len())?;
    print_kept(rt, service(), &calls(), 7)?;
    print_kept(rt, service(), thrice.as_slice(), 37)
}

// A single value has its cell without a list of cells. A slice hasn't.
fn record_without_cells(rt: &HostRuntime) -> Result<(), Failure> {
    let single_values = ServiceConfig {
        lists_cells: false,
        ..service()
    };
    let slices = ServiceConfig {
        lists_cells: false,
        ..slices()
    };
    print_kept(rt, single_values, &calls(), 7)?;
    print_kept(rt, slices, &calls(), 7)?;
    print_kept(rt, single_values, &calls(), usize::MAX)
}

// Says how many calls are kept and missed, and how many replies a replay has in common with them; or
// why nothing is recorded.
fn print_kept(
    rt: &HostRuntime,
    config: ServiceConfig,
    called: &[Call],
    room: usize,
) -> Result<(), Failure> {
    let (commands, replies, missed) = match record(rt.alloc(), config, called, room) {
        Ok(recorded) => recorded,
        Err(failure) => {
            println!(rt; "{failure}")?;
            return Ok(());
        }
    };
    let count = commands.len();
    let alike = count_alike(rt.alloc(), config, commands, &replies)?;
    println!(rt; "{count} calls kept, {missed} missed, {alike} with the same reply in a replay")?;
    Ok(())
}
