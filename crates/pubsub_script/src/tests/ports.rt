//! Scripts with many ports, in which each message arrives that finds room.
use super::plan::Plan;
use std::alloc::Global;
use std::io::Write;
use std::process::Abort;
use std::test::Fail;

/// What becomes of a message that finds a full buffer.
#[derive(Clone, Copy)]
enum Mode {
    /// It pushes the oldest one out.
    Overflow,
    /// It isn't delivered.
    Keep,
}

/// A domain's ports. Publishers are made by the first commands, and then the subscribers.
#[derive(Clone, Copy)]
struct Ports {
    publishers: usize,
    subscribers: usize,
    mode: Mode,
}

// Each subscriber has room for two messages of a publisher, and may borrow two.
const BUFFER: usize = 2;

// Each publisher sends one message more than a buffer takes.
const SENT: usize = 3;

/// Makes the domain and as many ports as it takes. One more of each kind is refused.
fn begin(alloc: Global, ports: Ports) -> Result<Plan, Fail> {
    let Ports {
        publishers,
        subscribers,
        mode,
    } = ports;
    let word = match mode {
        Mode::Overflow => "overflow",
        Mode::Keep => "keep",
    };
    let domain = format!(in alloc; "domain {publishers} {subscribers} {BUFFER} 2 0 2 {word}")?;
    let mut plan = Plan::new(alloc, &domain)?;
    for _ in 0..publishers {
        write!(plan.text, "pub 1 discard")?;
        plan.end("ok")?;
    }
    for _ in 0..subscribers {
        plan.call("sub", BUFFER, "ok")?;
    }
    write!(plan.text, "pub 1 discard")?;
    plan.end("err PublisherCreateError::ExceedsMaxSupportedPublishers")?;
    plan.call(
        "sub",
        BUFFER,
        "err SubscriberCreateError::ExceedsMaxSupportedSubscribers",
    )?;
    Ok(plan)
}

/// What a publisher's message says: who sent it, and which of its messages it is.
fn value_of(publisher: usize, index: usize) -> usize {
    publisher.saturating_mul(10).saturating_add(index)
}

/// Each publisher sends its messages. The last of them finds every buffer full.
fn send_all(alloc: Global, plan: &mut Plan, ports: Ports) -> Result<(), Fail> {
    for publisher in 1..=ports.publishers {
        for index in 0..SENT {
            let takers = match ports.mode {
                Mode::Keep if index >= BUFFER => 0,
                _ => ports.subscribers,
            };
            plan.send(alloc, publisher, value_of(publisher, index), takers)?;
        }
    }
    Ok(())
}

/// A subscriber receives what waits for it, publisher after publisher and one of them first, and
/// gives it all back.
fn receive_all(
    alloc: Global,
    plan: &mut Plan,
    ports: Ports,
    subscriber: usize,
    first: usize,
) -> Result<(), Fail> {
    let lost = match ports.mode {
        Mode::Overflow => SENT.saturating_sub(BUFFER),
        Mode::Keep => 0,
    };
    let mut samples = Vec::new(alloc);
    for turn in 0..=ports.publishers {
        let publisher = if turn == 0 { first } else { turn };
        if turn == first || publisher > ports.publishers {
            continue;
        }
        for index in 0..BUFFER {
            let sample = plan.call("recv", subscriber, "sample")?;
            let value = value_of(publisher, index.saturating_add(lost));
            let reply = format!(in alloc; "ok {value}")?;
            plan.call("read", sample, &reply)?;
            samples.push(sample)?;
        }
    }
    plan.call("recv", subscriber, "none")?;
    for &sample in samples.iter() {
        plan.call("release", sample, "ok")?;
    }
    Ok(())
}

/// All messages are sent and received twice, so that slots are used again. The second time each
/// subscriber looks first where its last message came from.
fn assert_all_arrive(rt: &impl Abort, alloc: Global, ports: Ports) -> Result<(), Fail> {
    let mut plan = begin(alloc, ports)?;
    for first in [1, ports.publishers] {
        send_all(alloc, &mut plan, ports)?;
        for index in 1..=ports.subscribers {
            receive_all(
                alloc,
                &mut plan,
                ports,
                ports.publishers.saturating_add(index),
                first,
            )?;
        }
    }
    plan.assert(rt, alloc);
    Ok(())
}

#[test]
fn each_message_arrives_at_each_subscriber(rt: HostRuntime) -> Result<(), Fail> {
    for (publishers, subscribers) in [(0, 0), (0, 2), (2, 0), (1, 1), (2, 3), (5, 2), (3, 40)] {
        for mode in [Mode::Overflow, Mode::Keep] {
            let ports = Ports {
                publishers,
                subscribers,
                mode,
            };
            assert_all_arrive(&rt, rt.alloc(), ports)?;
        }
    }
    Ok(())
}
