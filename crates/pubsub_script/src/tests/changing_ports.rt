//! Scripts that have many ports, and some of them are closed and made again on the way.
use super::plan::Plan;
use std::alloc::Global;
use std::io::Write;
use std::test::Fail;

const PUBLISHERS: usize = 3;

const SUBSCRIBERS: usize = 40;

/// In each round every publisher sends a message, and one of them is closed after it.
const ROUNDS: usize = 4;

fn create_publisher(plan: &mut Plan) -> Result<usize, Fail> {
    write!(plan.text, "pub 1 discard")?;
    plan.end("ok")
}

/// A subscriber receives and reads the message. It may be closed before it gives that back: then its
/// place is taken until it does, and free for the next one, whose number is returned.
fn receive(
    plan: &mut Plan,
    subscriber: usize,
    value: &str,
    is_closed: bool,
) -> Result<usize, Fail> {
    let sample = plan.call("recv", subscriber, "sample")?;
    if is_closed {
        plan.call("close", subscriber, "ok")?;
        plan.call(
            "sub",
            1,
            "err SubscriberCreateError::ExceedsMaxSupportedSubscribers",
        )?;
    }
    plan.call("read", sample, value)?;
    plan.call("release", sample, "ok")?;
    if is_closed {
        return plan.call("sub", 1, "ok");
    }
    plan.call("recv", subscriber, "none")?;
    Ok(subscriber)
}

/// A publisher sends a message, which each subscriber receives, also where the publisher is closed
/// meanwhile. Of every `ROUNDS` subscribers one is closed too. Returns the number of the publisher
/// that is in its place afterwards.
fn pass(
    alloc: Global,
    plan: &mut Plan,
    publisher: usize,
    subscribers: &mut [usize],
    value: usize,
    is_closed: bool,
) -> Result<usize, Fail> {
    plan.send(alloc, publisher, value, SUBSCRIBERS)?;
    if is_closed {
        plan.call("close", publisher, "ok")?;
    }
    let reply = format!(in alloc; "ok {value}")?;
    for (index, subscriber) in subscribers.iter_mut().enumerate() {
        let is_closed = index % ROUNDS == value % ROUNDS;
        *subscriber = receive(plan, *subscriber, &reply, is_closed)?;
    }
    if is_closed {
        create_publisher(plan)
    } else {
        Ok(publisher)
    }
}

#[test]
fn each_message_arrives_while_ports_come_and_go(rt: HostRuntime) -> Result<(), Fail> {
    let domain = format!(in rt.alloc(); "domain {PUBLISHERS} {SUBSCRIBERS} 1 1 0 1 keep")?;
    let mut plan = Plan::new(rt.alloc(), &domain)?;
    let mut subscribers = Vec::new(rt.alloc());
    for _ in 0..SUBSCRIBERS {
        subscribers.push(plan.call("sub", 1, "ok")?)?;
    }
    let mut publishers = Vec::new(rt.alloc());
    for _ in 0..PUBLISHERS {
        publishers.push(create_publisher(&mut plan)?)?;
    }
    for round in 1..=ROUNDS {
        for (index, publisher) in publishers.iter_mut().enumerate() {
            let value = round.saturating_mul(10).saturating_add(index);
            let is_closed = index == round % PUBLISHERS;
            *publisher = pass(
                rt.alloc(),
                &mut plan,
                *publisher,
                subscribers.as_mut_slice(),
                value,
                is_closed,
            )?;
        }
    }
    plan.assert(&rt, rt.alloc());
    Ok(())
}

// The last two are the 601st and the 602nd of the domain.
#[test]
fn ports_are_made_and_closed_many_times(rt: HostRuntime) -> Result<(), Fail> {
    let mut plan = Plan::new(rt.alloc(), "domain 1 1 1 1 0 1 keep")?;
    for _ in 0..300 {
        let subscriber = plan.call("sub", 1, "ok")?;
        write!(plan.text, "pub 1 discard")?;
        let publisher = plan.end("ok")?;
        plan.call("close", subscriber, "ok")?;
        plan.call("close", publisher, "ok")?;
    }
    let subscriber = plan.call("sub", 1, "ok")?;
    write!(plan.text, "pub 1 discard")?;
    let publisher = plan.end("ok")?;
    plan.copy(rt.alloc(), publisher, 5, 1)?;
    let sample = plan.call("recv", subscriber, "sample")?;
    plan.call("read", sample, "ok 5")?;
    plan.assert(&rt, rt.alloc());
    Ok(())
}
