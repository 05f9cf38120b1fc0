//! What a domain tells of connections that were refused memory.
use crate::answer::Service;
use crate::failure::Failure;
use iox2_pubsub::Warning;

/// Prints the domain's warnings, and how many connections were refused memory.
pub(crate) fn print_warnings(rt: &HostRuntime, domain: &Service) -> Result<(), Failure> {
    for at in 0..domain.warnings().len() {
        if let Some(&warning) = domain.warnings().get(at) {
            print_warning(rt, warning)?;
        }
    }
    println!(rt; "refused connections: {}", domain.refused_connections())?;
    Ok(())
}

fn print_warning(rt: &HostRuntime, warning: Warning) -> Result<(), Failure> {
    match warning {
        Warning::ConnectionNotMade { sender, receiver } => {
            println!(rt; "no connection {} {}", sender.value(), receiver.value())?;
        }
        Warning::PublisherPartlyConnected { publisher, failure } => {
            println!(rt; "partly publisher {} {failure}", publisher.value())?;
        }
        Warning::SubscriberPartlyConnected {
            subscriber,
            failure,
        } => {
            println!(rt; "partly subscriber {} {failure}", subscriber.value())?;
        }
        _ => println!(rt; "another warning")?,
    }
    Ok(())
}
