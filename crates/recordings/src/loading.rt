//! Recordings are read.
use crate::commands::CHANNELS;
use crate::load_error::{Fault, LoadError};
use crate::recording::Recording;
use crate::saving::{READS, REPLIES, TITLE, VERSION, push_end};
use crate::sum::Sum;
use iox2_machine::{AllocationStrategy, BackpressureStrategy, ServiceConfig};
use script_text::{command_of, domain_of};
use std::alloc::Global;

/// The recording that the text is.
///
/// Each `LoadError` names the first line that is wrong, and nothing of the text is used then.
pub fn load(alloc: Global, text: &[u8]) -> Result<Recording, LoadError> {
    let Ok(text) = str::from_utf8(text) else {
        return Err(LoadError {
            line: 1,
            fault: Fault::NotText,
        });
    };
    let mut reader = Reader::new(alloc);
    let mut line = 0usize;
    for piece in text.split('\n') {
        line = line.saturating_add(1);
        if let Err(fault) = reader.read(alloc, piece) {
            return Err(LoadError { line, fault });
        }
    }
    match reader.expects {
        Expects::Nothing => Ok(reader.recording),
        _ => Err(LoadError {
            line,
            fault: Fault::Cut,
        }),
    }
}

// What is read next.
#[derive(Clone, Copy)]
enum Expects {
    Title,
    Service,
    Domain,
    Command,
    // The empty text behind the last line feed.
    Empty,
    Nothing,
}

// What was read so far.
#[derive(Drop)]
struct Reader {
    recording: Recording,
    sum: Sum,
    expects: Expects,
}

impl Reader {
    fn new(alloc: Global) -> Reader {
        Reader {
            recording: Recording::new(alloc, ServiceConfig::new(1)),
            sum: Sum::new(),
            expects: Expects::Title,
        }
    }

    // Reads a line without its end, or the text behind the last one.
    fn read(&mut self, alloc: Global, line: &str) -> Result<(), Fault> {
        match self.expects {
            Expects::Title => {
                check_title(line)?;
                self.expects = Expects::Service;
            }
            Expects::Service => {
                let (service, reads) = reads_of(line).ok_or(Fault::BadService)?;
                self.recording.config = service_of(service).ok_or(Fault::BadService)?;
                self.recording.reads = reads;
                self.expects = Expects::Domain;
            }
            Expects::Domain => {
                let domain = domain_of(line.as_bytes()).ok_or(Fault::BadDomain)?;
                let service = self.recording.config;
                if service.number_of_channels != 1 && line.contains(CHANNELS) {
                    return Err(Fault::BadDomain);
                }
                self.recording.config = with_domain(service, domain);
                self.expects = Expects::Command;
            }
            Expects::Command => {
                if line.starts_with("end ") {
                    self.check_end(alloc, line)?;
                    self.expects = Expects::Empty;
                } else {
                    self.read_command(alloc, line)?;
                }
            }
            Expects::Empty if line.is_empty() => self.expects = Expects::Nothing,
            Expects::Empty | Expects::Nothing => return Err(Fault::MoreText),
        }
        self.sum = self.sum.with(line.as_bytes()).with(b"\n");
        Ok(())
    }

    fn read_command(&mut self, alloc: Global, line: &str) -> Result<(), Fault> {
        if line.is_empty() {
            return Err(Fault::Cut);
        }
        let Some((command, reply)) = line.split_once(REPLIES) else {
            return Err(match command_of(line.as_bytes()) {
                Some(_) => Fault::NoReply,
                None => Fault::BadCommand,
            });
        };
        let command = command_of(command.as_bytes()).ok_or(Fault::BadCommand)?;
        let mut text = String::new(alloc);
        text.push_str(reply)?;
        self.recording.commands.push(command)?;
        self.recording.replies.push(text)?;
        Ok(())
    }

    // The last line has the count of the commands, and the sum of all lines before it.
    fn check_end(&self, alloc: Global, line: &str) -> Result<(), Fault> {
        let mut end = String::new(alloc);
        push_end(&mut end, self.recording.commands.len(), self.sum)?;
        if line == end.as_str() {
            Ok(())
        } else {
            Err(Fault::Changed)
        }
    }
}

fn check_title(line: &str) -> Result<(), Fault> {
    let Some(version) = line.strip_prefix(TITLE) else {
        return Err(Fault::NoRecording);
    };
    match version.parse::<u64>() {
        Ok(VERSION) => Ok(()),
        _ => Err(Fault::OtherVersion),
    }
}

// What is before the promise of reads, and how many elements it is for: 0 where there is none.
fn reads_of(line: &str) -> Option<(&str, usize)> {
    match line.split_once(READS) {
        Some((service, reads)) => Some((service, reads.parse::<usize>().ok()?)),
        None => Some((line, 0)),
    }
}

// Settings for which a script has no words: `service ID NODE UNITS LOANS STRATEGY MEMORY`, and in older
// recordings how many channels a connection has, where that isn't 1.
fn service_of(line: &str) -> Option<ServiceConfig> {
    let mut words = line.split(' ');
    if words.next()? != "service" {
        return None;
    }
    let service_id = words.next()?.parse::<u128>().ok()?;
    let node_id = words.next()?.parse::<u128>().ok()?;
    let units_per_element = words.next()?.parse::<usize>().ok()?;
    let publisher_max_loaned_samples = words.next()?.parse::<usize>().ok()?;
    let backpressure_strategy = match words.next()? {
        "retry" => BackpressureStrategy::RetryUntilDelivered,
        "discard" => BackpressureStrategy::DiscardData,
        _ => return None,
    };
    let publisher_allocation_strategy = match words.next()? {
        "static" => AllocationStrategy::Static,
        "bestfit" => AllocationStrategy::BestFit,
        "poweroftwo" => AllocationStrategy::PowerOfTwo,
        _ => return None,
    };
    let number_of_channels = match words.next() {
        Some(word) => word.parse::<usize>().ok()?,
        None => 1,
    };
    if words.next().is_some() {
        return None;
    }
    Some(ServiceConfig {
        node_id,
        units_per_element,
        publisher_max_loaned_samples,
        backpressure_strategy,
        publisher_allocation_strategy,
        number_of_channels,
        ..ServiceConfig::new(service_id)
    })
}

// The settings of the service with those of the domain's line.
fn with_domain(service: ServiceConfig, domain: ServiceConfig) -> ServiceConfig {
    let number_of_channels = match domain.number_of_channels {
        1 => service.number_of_channels,
        channels => channels,
    };
    ServiceConfig {
        service_id: service.service_id,
        node_id: service.node_id,
        units_per_element: service.units_per_element,
        publisher_max_loaned_samples: service.publisher_max_loaned_samples,
        backpressure_strategy: service.backpressure_strategy,
        publisher_allocation_strategy: service.publisher_allocation_strategy,
        number_of_channels,
        ..domain
    }
}
