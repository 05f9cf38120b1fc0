//! Scripts that are put together with the lines that they must print.
use super::Outcome;
use std::alloc::Global;
use std::io::Write;
use std::process::Abort;
use std::test::Fail;

/// A script, and the lines that it must print.
#[derive(Drop)]
pub(super) struct Plan {
    pub(super) text: Vec<u8>,
    replies: Vec<u8>,
    commands: usize,
}

impl Plan {
    /// A script whose first line is this one.
    pub(super) fn new(alloc: Global, domain: &str) -> Result<Plan, Fail> {
        let mut plan = Plan {
            text: Vec::new(alloc),
            replies: Vec::new(alloc),
            commands: 0,
        };
        writeln!(plan.text, "{domain}")?;
        Ok(plan)
    }

    /// Adds a call of what the command with the number `of` made, with its reply.
    pub(super) fn call(&mut self, call: &str, of: usize, reply: &str) -> Result<usize, Fail> {
        write!(self.text, "{call} {of}")?;
        self.end(reply)
    }

    /// Ends a command, which must have that reply, and returns its number.
    pub(super) fn end(&mut self, reply: &str) -> Result<usize, Fail> {
        writeln!(self.text, "")?;
        writeln!(self.replies, "{reply}")?;
        self.commands = self.commands.saturating_add(1);
        Ok(self.commands)
    }

    /// Adds a message, from its loan to its send, which that many subscribers take.
    pub(super) fn send(
        &mut self,
        alloc: Global,
        publisher: usize,
        value: usize,
        takers: usize,
    ) -> Result<(), Fail> {
        let loan = self.call("loan", publisher, "ok")?;
        write!(self.text, "write {loan} {value}")?;
        self.end("ok")?;
        let reply = format!(in alloc; "ok {takers}")?;
        self.call("send", loan, &reply)?;
        Ok(())
    }

    /// Adds a message that is sent at once, which that many subscribers take.
    pub(super) fn copy(
        &mut self,
        alloc: Global,
        publisher: usize,
        value: usize,
        takers: usize,
    ) -> Result<(), Fail> {
        write!(self.text, "copy {publisher} {value}")?;
        let reply = format!(in alloc; "ok {takers}")?;
        self.end(&reply)?;
        Ok(())
    }

    /// Asserts that the script prints these lines, and nothing else.
    pub(super) fn assert(&self, rt: &impl Abort, alloc: Global) {
        Outcome::of(alloc, self.text.as_slice()).assert(rt, 0, self.replies.as_slice(), b"");
    }
}
