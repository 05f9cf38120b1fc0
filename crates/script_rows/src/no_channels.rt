//! A row's script in a service that asks for no channels.
use iox2_machine::ServiceConfig;
use iox2_pubsub::Domain;
use iox2_runs::run;
use script_text::{Script, reply_lines};
use std::alloc::Global;

/// The lines of the replies to a script where the settings say 0 channels in place of 1, which is the same.
/// `None` where the script isn't run.
pub(crate) fn replies_without_channels(alloc: Global, text: &str) -> Option<String> {
    let script = Script::parse(alloc, text.as_bytes()).ok()?;
    let config = match script.config.number_of_channels {
        1 => ServiceConfig {
            number_of_channels: 0,
            ..script.config
        },
        _ => script.config,
    };
    let mut domain = Domain::new(alloc, config).ok()?;
    let replies = run(alloc, &mut domain, script.commands).ok()?;
    reply_lines(alloc, &replies).ok()
}
