//! Scripts over all small limits, in which each message arrives that finds room.
use super::plan::Plan;
use std::alloc::Global;
use std::collections::VecDeque;
use std::io::Write;
use std::process::Abort;
use std::test::Fail;

/// The limits of a domain, its subscriber and its publisher.
#[derive(Clone, Copy)]
struct Limits {
    buffer: usize,
    borrowed: usize,
    loans: usize,
}

/// Makes the domain and its two ports.
fn begin(alloc: Global, limits: Limits) -> Result<Plan, Fail> {
    let Limits {
        buffer,
        borrowed,
        loans,
    } = limits;
    let domain = format!(in alloc; "domain 1 1 {buffer} {borrowed} 0 {borrowed} keep")?;
    let mut plan = Plan::new(alloc, &domain)?;
    plan.call("sub", buffer, "ok")?;
    write!(plan.text, "pub {loans} discard")?;
    plan.end("ok")?;
    Ok(plan)
}

const SUBSCRIBER: usize = 1;

const PUBLISHER: usize = 2;

/// Lends as often as may be, and then writes and sends each loan. The messages that find room
/// arrive.
fn send_all(alloc: Global, plan: &mut Plan, limits: Limits) -> Result<(), Fail> {
    let mut loans = Vec::new(alloc);
    for _ in 0..limits.loans {
        loans.push(plan.call("loan", PUBLISHER, "ok")?)?;
    }
    plan.call("loan", PUBLISHER, "err LoanError::ExceedsMaxLoans")?;
    for (value, &loan) in loans.iter().enumerate() {
        write!(plan.text, "write {loan} {value}")?;
        plan.end("ok")?;
        let receivers = if value < limits.buffer.max(1) {
            "ok 1"
        } else {
            "ok 0"
        };
        plan.call("send", loan, receivers)?;
    }
    Ok(())
}

/// Receives and reads each message that arrived, in order, holding as many as may be.
fn receive_all(alloc: Global, plan: &mut Plan, limits: Limits) -> Result<(), Fail> {
    let mut held = VecDeque::new(alloc);
    for value in 0..limits.loans.min(limits.buffer.max(1)) {
        if held.len() == limits.borrowed {
            plan.call("recv", SUBSCRIBER, "err ReceiveError::ExceedsMaxBorrows")?;
            let Some(oldest) = held.pop_front() else {
                return Ok(());
            };
            plan.call("release", oldest, "ok")?;
        }
        let sample = plan.call("recv", SUBSCRIBER, "sample")?;
        held.push_back(sample)?;
        let reply = format!(in alloc; "ok {value}")?;
        plan.call("read", sample, &reply)?;
    }
    for &sample in held.iter() {
        plan.call("release", sample, "ok")?;
    }
    plan.call("recv", SUBSCRIBER, "none")?;
    Ok(())
}

/// The scripts send twice, so that slots are used again, but where nothing can be received.
fn assert_all_arrive(rt: &impl Abort, alloc: Global, limits: Limits) -> Result<(), Fail> {
    let mut plan = begin(alloc, limits)?;
    let rounds = if limits.borrowed == 0 { 1 } else { 2 };
    for _ in 0..rounds {
        send_all(alloc, &mut plan, limits)?;
        receive_all(alloc, &mut plan, limits)?;
    }
    plan.assert(rt, alloc);
    Ok(())
}

const MOST: usize = 40;

#[test]
fn each_message_arrives_whatever_the_limits(rt: HostRuntime) -> Result<(), Fail> {
    for limit in 0..=MOST {
        let other = MOST - limit;
        for [buffer, borrowed, loans] in [
            [limit, limit, limit],
            [limit, other, MOST],
            [MOST, limit, other],
            [other, MOST, limit],
        ] {
            let limits = Limits {
                buffer,
                borrowed,
                loans,
            };
            assert_all_arrive(&rt, rt.alloc(), limits)?;
        }
    }
    Ok(())
}
