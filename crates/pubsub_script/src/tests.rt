mod arrivals;
mod changing_ports;
mod plan;
mod ports;
mod streams;

use script_runner::{Ending, ScriptError, script};
use std::alloc::Global;
use std::io::Read;
use std::process::Abort;
use std::test::Fail;
use streams::{Dribble, Narrow, NoFlush, Tank};

/// What a script comes to.
#[derive(Drop)]
struct Outcome<'a> {
    text: &'a [u8],
    status: u8,
    replies: Vec<u8>,
    errors: Vec<u8>,
}

impl<'a> Outcome<'a> {
    /// Runs a script that is in a slice.
    fn of(alloc: Global, text: &'a [u8]) -> Self {
        let mut input = text;
        Outcome::of_input(alloc, text, &mut input)
    }

    /// Runs a script whose text `input` gives.
    fn of_input<R: Read>(alloc: Global, text: &'a [u8], input: &mut R) -> Self {
        let mut replies = Vec::new(alloc);
        let mut errors = Vec::new(alloc);
        let ending = script(alloc, input, &mut replies, &mut errors);
        Outcome {
            text,
            status: ending.status(),
            replies,
            errors,
        }
    }

    /// Asserts the status and what was written to both streams.
    fn assert(&self, rt: &impl Abort, status: u8, replies: &[u8], errors: &[u8]) {
        assert_eq!(rt; self.status, status, "at {:?}", self.text);
        assert_eq!(rt; self.replies.as_slice(), replies, "at {:?}", self.text);
        assert_eq!(rt; self.errors.as_slice(), errors, "at {:?}", self.text);
    }
}

const WORKED: &[u8] = b"\
domain 1 1 2 1 0 0 keep
sub 3
sub 2
sub 2
pub 1 discard
loan 4
loan 4
send 5
write 5 7
read 5
send 5
recv 2
read 11
recv 2
release 11
read 11
";

const WORKED_REPLIES: &[u8] = b"\
err SubscriberCreateError::BufferSizeExceedsMaxSupportedBufferSizeOfService
ok
err SubscriberCreateError::ExceedsMaxSupportedSubscribers
ok
ok
err LoanError::ExceedsMaxLoans
skipped
ok
ok 7
ok 1
sample
ok 7
none
ok
skipped
";

/// What is told of a subscriber in a domain that has less room for departed publishers than messages
/// may be borrowed.
const RAISED: &[u8] = b"warning ExpiredBufferRaised\n";

/// Scripts of one line.
const DOMAINS_ALONE: [&[u8]; 5] = [
    b"domain 1 1 1 1 0 0 keep\n",
    b"domain 1 1 1 1 0 0 keep",
    b"  domain   01 001 0 0 00 18446744073709551615 keep \r\n",
    b"domain 1 1 1 1 0 0 keep channels 0\n",
    b"slices 1 1 1 1 0 0 overflow  channels 18446744073709551615\n",
];

/// Scripts whose first line makes no domain.
const WITHOUT_A_DOMAIN: [&[u8]; 27] = [
    b"",
    b"\n",
    b"  \n",
    b"\r\n",
    b"sub 1\n",
    b"domain\n",
    b"domain 1 1 1 1 0 0\n",
    b"domain 1 1 1 1 0 keep\n",
    b"domain 1 1 1 1 0 0 keep 0\n",
    b"domain 1 1 1 1 0 0 keep channels\n",
    b"domain 1 1 1 1 0 0 keep channel 2\n",
    b"domain 1 1 1 1 0 0 keep channels x\n",
    b"domain 1 1 1 1 0 0 keep channels 2 2\n",
    b"domain 1 1 1 1 0 0 channels 2 keep\n",
    b"domain 1 1 1 1 0 0 Keep\n",
    b"domain 1 1 1 1 0 0 keep overflow\n",
    b"domain 1 1 1 1 0 0 overflows\n",
    b"domain x 1 1 1 0 0 keep\n",
    b"domain 1 x 1 1 0 0 keep\n",
    b"domain 1 1 1 1 0 0 keep\r",
    b"domain 1 1 1 1 0 0 keep\r\r\n",
    b"domain 1 1 x 1 0 0 keep\n",
    b"domain 1 1 1 -1 0 0 keep\n",
    b"domain 1 1 1 1 0 18446744073709551616 keep\n",
    b"domain 1 1 1 1 0 0 k\xC3ep\n",
    b"domain 1 1 1 1 x 0 keep\n",
    b"\nsub x\n",
];

/// Lines that are no commands.
const MALFORMED_LINES: [&[u8]; 86] = [
    b"",
    b"  ",
    b"nothing 1",
    b"domain 1 1 1 1 0 0 keep",
    b"sub",
    b"sub x",
    b"sub 1 1",
    b"sub +1",
    b"sub -1",
    b"sub 1.0",
    b"sub 0x1",
    b"sub 18446744073709551616",
    b"sub 00000000000000000000018446744073709551616",
    b"Sub 1",
    b"sub1",
    b"sub\t1",
    b"\tsub 1",
    b"su\rb 1",
    b"sub \r1",
    b"sub 1\r",
    b"sub 1 \r",
    b"sub \xFF",
    b"sub 1\xC2\xA0",
    b"sub \xD9\xA1",
    b"sub 1 2 3 4 5 6 7 8",
    b"pub",
    b"pub 1",
    b"pub discard",
    b"pub 1 discards",
    b"pub 1 discard 1",
    b"pub retry",
    b"pub 1 Retry",
    b"pub 1 retry 1",
    b"pub 1 retry discard",
    b"loan",
    b"loan 1 1",
    b"write 1",
    b"write 1 1 1",
    b"write 1 18446744073709551616",
    b"send",
    b"send 1 1",
    b"copy",
    b"copy 1",
    b"copy 1 x",
    b"copy 1 1 1",
    b"discard",
    b"discard 1 1",
    b"retry",
    b"retry x",
    b"retry 1 0",
    b"giveup",
    b"giveup 1 1",
    b"give 1",
    b"blocked 1",
    b"close",
    b"close 1 1",
    b"recv",
    b"recv 1 1",
    b"has",
    b"has 1 1",
    b"update",
    b"update 1 1",
    b"read",
    b"read 1 0 0",
    b"release",
    b"release 1 1",
    b"deliver 1 0",
    b"deliver 1 0 0 0",
    b"deliver 1 0 x",
    b"connection 1",
    b"connection 1 -1",
    b"connection 1 +1",
    b"connection 1 1 1",
    b"connection 1 340282366920938463463374607431768211456",
    b"open 1 0",
    b"open 1 0 0 0",
    b"state 1 0",
    b"state 1 0 0 0 0",
    b"shut 1 0",
    b"shut 1 0 0 18446744073709551616",
    b"hint 1 0 0 0",
    b"hinted 1 0 0",
    b"hinted 1 0 x 0",
    // What later scripts may ask for.
    b"pub 1 wait",
    b"wait 1",
    b"shut 1",
];

/// Scripts whose second line has a word that names nothing, a word too many, or a number too large. The
/// last has its carriage return, since no line feed follows.
const MALFORMED: [&[u8]; 10] = [
    b"domain 1 1 1 1 0 1 keep\npub 1 discard static 1 most warn\n",
    b"domain 1 1 1 1 0 1 keep\npub 1 discard static 1 most warn most\n",
    b"domain 1 1 1 1 0 1 keep\nsub most most\n",
    b"domain 1 1 1 1 0 1 keep\nretry 1 0 1000000000\n",
    b"domain 1 1 1 1 0 1 keep\nretry 1 0\n",
    b"domain 1 1 1 1 0 1 keep\nset 1 0\n",
    b"domain 1 1 1 1 0 1 keep\ncell 1 0 18446744073709551616\n",
    b"domain 1 1 1 1 0 1 keep\nnothing 1\n",
    b"domain 1 1 1 1 0 0 keep\nsub x\n",
    b"domain 1 1 1 1 0 0 keep\nloan 0\r",
];

/// Scripts of one command, whose number names nothing.
const NAMING_NOTHING: [&[u8]; 23] = [
    b"domain 1 1 1 1 0 0 keep\nloan 0",
    b"domain 1 1 1 1 0 0 keep\nloan 1\n",
    b"domain 1 1 1 1 0 0 keep\n  send   02 \n",
    b"domain 1 1 1 1 0 0 keep\nrecv 18446744073709551615\r\n",
    b"domain 1 1 1 1 0 0 keep\nwrite 0 18446744073709551615",
    b"domain 1 1 1 1 0 0 keep\ncopy 1 18446744073709551615",
    b"domain 1 1 1 1 0 0 keep\nread 00000000000000000000000000001",
    b"domain 1 1 1 1 0 0 keep\nrelease 1",
    b"domain 1 1 1 1 0 0 keep\ndiscard 1",
    b"domain 1 1 1 1 0 0 keep\nretry 1",
    b"domain 1 1 1 1 0 0 keep\ngiveup 0",
    b"domain 1 1 1 1 0 0 keep\nhas 1",
    b"domain 1 1 1 1 0 0 keep\nupdate 1",
    b"domain 1 1 1 1 0 0 keep\nclose 1",
    b"domain 1 1 1 1 0 0 keep\ndeliver 1 0 18446744073709551615",
    b"domain 1 1 1 1 0 0 keep\nconnection 1 340282366920938463463374607431768211455",
    b"domain 1 1 1 1 0 0 keep\nopen 0 0 18446744073709551615",
    b"domain 1 1 1 1 0 0 keep\nstate 1 0 0",
    b"domain 1 1 1 1 0 0 keep\nstate 1 0 0 0",
    b"domain 1 1 1 1 0 0 keep\nshut 1 0 0",
    b"domain 1 1 1 1 0 0 keep\nshut 1 0 0 0",
    b"domain 1 1 1 1 0 0 keep\nhint 1 0 0",
    b"domain 1 1 1 1 0 0 keep\nhinted 1 0 0 0",
];

/// Asserts the status of each script, and what is printed of it.
fn assert_each(
    rt: &impl Abort,
    alloc: Global,
    texts: &[&[u8]],
    status: u8,
    replies: &[u8],
    errors: &[u8],
) {
    for text in texts {
        Outcome::of(alloc, text).assert(rt, status, replies, errors);
    }
}

#[test]
fn a_script_is_carried_out_or_its_bad_line_is_named(rt: HostRuntime) {
    assert_each(&rt, rt.alloc(), &DOMAINS_ALONE, 0, b"", b"");
    assert_each(
        &rt,
        rt.alloc(),
        &WITHOUT_A_DOMAIN,
        2,
        b"",
        b"line 1: bad command\n",
    );
    assert_each(
        &rt,
        rt.alloc(),
        &MALFORMED,
        2,
        b"",
        b"line 2: bad command\n",
    );
    assert_each(&rt, rt.alloc(), &NAMING_NOTHING, 0, b"skipped\n", b"");
}

#[test]
fn a_malformed_line_is_named(rt: HostRuntime) -> Result<(), Fail> {
    for line in MALFORMED_LINES {
        let mut text = Vec::new(rt.alloc());
        text.extend_from_slice(b"domain 1 1 1 1 0 0 keep\nsub 1\r\n")?;
        text.extend_from_slice(line)?;
        text.extend_from_slice(b"\r\nsub x")?;
        Outcome::of(rt.alloc(), text.as_slice()).assert(&rt, 2, b"", b"line 3: bad command\n");
    }
    Ok(())
}

#[test]
fn a_script_may_come_in_pieces(rt: HostRuntime) {
    let mut input = Dribble::new(WORKED, None);
    Outcome::of_input(rt.alloc(), WORKED, &mut input).assert(&rt, 0, WORKED_REPLIES, RAISED);
}

#[test]
fn a_fault_of_the_input_comes_first(rt: HostRuntime) {
    for (text, most) in [
        (WORKED, 0),
        (WORKED, 100),
        (b"bad\n".as_slice(), 2),
        (b"bad\n".as_slice(), 4),
    ] {
        let mut input = Dribble::new(text, Some(most));
        Outcome::of_input(rt.alloc(), text, &mut input).assert(&rt, 4, b"", b"input failed\n");
    }
}

#[test]
fn a_fault_of_the_output_ends_the_printing(rt: HostRuntime) {
    let reported = Ending::Reported(ScriptError::OutputFailed);
    for room in [0, 1, 76, 200] {
        let mut input = WORKED;
        let mut output = Narrow::new(room);
        let mut errors = Vec::new(rt.alloc());
        let ending = script(rt.alloc(), &mut input, &mut output, &mut errors);
        assert!(rt;
            ending == reported && ending.status() == 4,
            "with room for {room}"
        );
        assert!(rt;
            output.room() == 0 && errors.as_slice() == b"output failed\n".as_slice(),
            "with room for {room}"
        );
    }
}

#[test]
fn the_output_is_flushed(rt: HostRuntime) {
    let mut input = WORKED;
    let mut output = Tank::new();
    let mut errors = Vec::new(rt.alloc());
    let ending = script(rt.alloc(), &mut input, &mut output, &mut errors);
    assert!(rt; ending == Ending::Printed);
    assert_eq!(rt;
        [output.held(), output.flushed()],
        [0, WORKED_REPLIES.len()]
    );

    let mut input = WORKED;
    let ending = script(rt.alloc(), &mut input, &mut NoFlush, &mut errors);
    assert!(rt; ending == Ending::Reported(ScriptError::OutputFailed));
    assert_eq!(rt;
        errors.as_slice(),
        b"warning ExpiredBufferRaised\noutput failed\n".as_slice()
    );
}

/// Scripts for which errors are told that don't find room: a line that is bad, and a second warning.
const WITH_ERRORS: [(&[u8], usize, Ending, u8, &[u8]); 2] = [
    (
        b"bad",
        5,
        Ending::Unreported(ScriptError::BadCommand(1)),
        2,
        b"",
    ),
    (
        b"domain 1 2 1 1 0 0 keep\nsub 1\nsub 1\n",
        30,
        Ending::Unwarned,
        0,
        b"ok\nok\n",
    ),
];

#[test]
fn a_fault_of_the_errors_changes_nothing(rt: HostRuntime) {
    for (text, room, expected, status, printed) in WITH_ERRORS {
        let mut input = text;
        let mut replies = Vec::new(rt.alloc());
        let mut errors = Narrow::new(room);
        let ending = script(rt.alloc(), &mut input, &mut replies, &mut errors);
        assert!(rt;
            ending == expected && ending.status() == status,
            "with room for {room}"
        );
        assert_eq!(rt; replies.as_slice(), printed, "with room for {room}");
        assert_eq!(rt; errors.room(), 0, "with room for {room}");
    }
}
