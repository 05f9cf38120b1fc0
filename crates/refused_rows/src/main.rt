//! Carries out a short row of calls, for `tools/refused_memory`, which has each allocation refused in
//! turn. In two rows a port meets one that comes later: the arguments say which of the two, and what
//! each port answers where its connection is refused and whether a box answers. In the third one a
//! publisher's memory grows, by the strategy that the arguments say.
#![tactic(auto)]

ghost use Rattle.std.specs.Prelude.{◌≡◌, IfOk};
ghost use Rattle.iox2_pubsub.specs.Live.{IsSingleValued};
ghost use Rattle.iox2_pubsub.specs.Slices.{IsSliced};

mod answer;
mod failure;
mod growth;
mod ports;
mod rows;
mod warnings;

use answer::{Answer, Handler, Service};
use command_line::run_task;
use failure::Failure;
use growth::growing_publisher;
use iox2_pubsub::{AllocationStrategy, Domain, DomainCreateError, ServiceConfig, TypeVariant};
use rows::{Later, meet};
use std::alloc::Global;
use std::process::ExitCode;
use warnings::print_warnings;

fn main(rt: HostRuntime) -> ExitCode {
    run_task(&rt, carry_out)
}

// Does what the arguments ask for.
fn carry_out(rt: &HostRuntime, words: &[String]) -> Result<(), Failure> {
    let [_, row, answer] = words else {
        return Err(Failure::Usage);
    };
    let answer = answer.as_str();
    match row.as_str() {
        "later_subscriber" => meet_later(rt, Later::Subscriber, parse_answer(answer)?),
        "later_publisher" => meet_later(rt, Later::Publisher, parse_answer(answer)?),
        "growing_publisher" => grow_memory(rt, parse_strategy(answer)?),
        _ => Err(Failure::Usage),
    }
}

fn parse_answer(word: &str) -> Result<Answer, Failure> {
    Answer::parse(word).ok_or(Failure::Usage)
}

fn parse_strategy(word: &str) -> Result<AllocationStrategy, Failure> {
    match word {
        "best_fit" => Ok(AllocationStrategy::BestFit),
        "power_of_two" => Ok(AllocationStrategy::PowerOfTwo),
        _ => Err(Failure::Usage),
    }
}

// The domain has room for the port that comes at last.
fn meet_later(rt: &HostRuntime, later: Later, answer: Answer) -> Result<(), Failure> {
    let (is_publisher_second, max_publishers, max_subscribers) = match later {
        Later::Subscriber => (false, 2, 1),
        Later::Publisher => (true, 1, 2),
    };
    let handlers = handlers(answer, is_publisher_second);
    let mut domain = domain_of(rt.alloc(), max_publishers, max_subscribers)?;
    meet(rt, &mut domain, later, handlers)?;
    print_warnings(rt, &domain)
}

fn grow_memory(rt: &HostRuntime, strategy: AllocationStrategy) -> Result<(), Failure> {
    let mut domain = sliced_domain(rt.alloc())?;
    growing_publisher(rt, &mut domain, strategy)?;
    print_warnings(rt, &domain)
}

// The handlers of the three ports of a row. In each the second port has the id 2.
fn handlers(answer: Answer, is_publisher_second: bool) -> (Handler, Handler, Handler) {
    let first = answer.handler(is_publisher_second);
    let second = answer.handler(is_publisher_second);
    (first, second, answer.handler(is_publisher_second))
}

fn domain_of(
    alloc: Global,
    max_publishers: usize,
    max_subscribers: usize,
) -> Result<Service, DomainCreateError>
    ensures { IfOk result (λ domain. IsSingleValued domain) }
{
    let config = ServiceConfig {
        max_publishers,
        max_subscribers,
        subscriber_max_buffer_size: 2,
        history_size: 0,
        enable_safe_overflow: false,
        ..ServiceConfig::new(7)
    };
    Domain::with_handlers(alloc, config)
}

// The domain of a publisher whose memory grows.
fn sliced_domain(alloc: Global) -> Result<Service, DomainCreateError>
    ensures dynamic { IfOk result (λ domain. (domain.config).variant ≡ TypeVariant.Dynamic) }
    ensures one_unit { IfOk result (λ domain. (domain.config).units_per_element ≡ 1) }
    ensures sliced { IfOk result (λ domain. IsSliced domain) }
{
    let config = ServiceConfig {
        variant: TypeVariant::Dynamic,
        max_publishers: 1,
        max_subscribers: 1,
        subscriber_max_buffer_size: 1,
        subscriber_max_borrowed_samples: 3,
        history_size: 0,
        ..ServiceConfig::new(7)
    };
    Domain::with_handlers(alloc, config)
}
