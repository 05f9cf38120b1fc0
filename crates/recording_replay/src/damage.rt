//! Damaged recordings are refused.
use crate::failure::Failure;
use crate::record::recorded;
use random_commands::draw_script;
use recordings::{Fault, load, save};

// How many commands a list has at most.
const MOST_COMMANDS: usize = 12;

/// Draws that many short lists of a seed, and damages the recording of each: every byte in turn is
/// flipped in each of its bits, and the text is cut at every place. No damaged text is a recording.
pub(crate) fn try_damages(rt: &HostRuntime, count: u64, seed: u64) -> Result<(), Failure> {
    let mut tried = 0usize;
    for number in 0..count {
        let script = draw_script(rt.alloc(), seed, number, MOST_COMMANDS)?;
        let recording = recorded(rt.alloc(), script.config, script.commands.as_slice())?;
        let text = save(rt.alloc(), &recording)?;
        tried = tried.saturating_add(try_flips(rt, text.as_bytes())?);
        tried = tried.saturating_add(try_cuts(rt, text.as_bytes())?);
    }
    println!(rt; "{count} recordings of seed {seed}, {tried} damaged texts: each is refused")?;
    try_other_texts(rt)?;
    try_older_text(rt)
}

// Flips each bit of each byte, and returns how often.
fn try_flips(rt: &HostRuntime, text: &[u8]) -> Result<usize, Failure> {
    let mut damaged = Vec::from_slice(rt.alloc(), text)?;
    let mut tried = 0usize;
    for place in 0..text.len() {
        for bit in [1u8, 2, 4, 8, 16, 32, 64, 128] {
            flip(&mut damaged, place, bit);
            if load(rt.alloc(), damaged.as_slice()).is_ok() {
                return missed(rt, place, "flipped");
            }
            flip(&mut damaged, place, bit);
            tried = tried.saturating_add(1);
        }
    }
    Ok(tried)
}

fn flip(bytes: &mut Vec<u8>, place: usize, bit: u8) {
    if let Some(byte) = bytes.get_mut(place) {
        *byte = *byte ^ bit;
    }
}

// Cuts the text at each place, and returns how often.
fn try_cuts(rt: &HostRuntime, text: &[u8]) -> Result<usize, Failure> {
    let mut tried = 0usize;
    for end in 0..text.len() {
        if load(rt.alloc(), &text[..end]).is_ok() {
            return missed(rt, end, "cut");
        }
        tried = tried.saturating_add(1);
    }
    Ok(tried)
}

fn missed(rt: &HostRuntime, place: usize, what: &str) -> Result<usize, Failure> {
    println!(rt; "a recording that is {what} at byte {place} is read")?;
    Err(Failure::Refuted)
}

const SETTINGS: &str = "service 1 1 1 1 discard static\ndomain 1 1 1 1 0 0 keep\n";

// An older recording, whose second line has the number of channels.
const OLDER: &str = "recording 1\n\
    service 1 1 1 1 discard static 3\n\
    domain 1 1 2 1 0 0 keep\n\
    sub 2 = subscriber 1\n\
    pub 1 discard = publisher 2\n\
    copy 2 7 = delivered 1\n\
    recv 1 = sample 2\n\
    read 4 = value 7\n\
    close 2 = done\n\
    end 6 b1e28c7da6982490\n";

// Both lines say how many channels there are.
const TWICE: &str = "recording 1\n\
    service 1 1 1 1 discard static 3\n\
    domain 1 1 1 1 0 0 keep channels 3\n";

// It is read, and replies the same.
fn try_older_text(rt: &HostRuntime) -> Result<(), Failure> {
    let older = load(rt.alloc(), OLDER.as_bytes())?;
    let again = recorded(rt.alloc(), older.config, older.commands.as_slice())?;
    if older.config.number_of_channels == 3 && older.replies == again.replies {
        return Ok(());
    }
    println!(rt; "an older recording is read as another one")?;
    Err(Failure::Refuted)
}

// Texts with faults of their own.
fn try_other_texts(rt: &HostRuntime) -> Result<(), Failure> {
    expect(rt, "recording 2\n", "", Fault::OtherVersion, 1)?;
    expect(
        rt,
        "recording 18446744073709551616\n",
        "",
        Fault::OtherVersion,
        1,
    )?;
    expect(rt, "domain 1 1 1 1 0 0 keep\n", "", Fault::NoRecording, 1)?;
    expect(rt, TWICE, "", Fault::BadDomain, 3)?;
    for channels in ["", "x", "-1", "2 2"] {
        let mut title = String::new(rt.alloc());
        title.push_str("recording 1\nservice 1 1 1 1 discard static ")?;
        title.push_str(channels)?;
        title.push('\n')?;
        expect(rt, title.as_str(), "", Fault::BadService, 2)?;
    }
    expect(
        rt,
        "recording 1\n",
        "copy 1 18446744073709551616 = skipped\n",
        Fault::BadCommand,
        4,
    )?;
    expect(
        rt,
        "recording 1\n",
        "copy 1 2 = skipped\njump 1 = done\n",
        Fault::BadCommand,
        5,
    )?;
    expect(rt, "recording 1\n", "copy 1 2\n", Fault::NoReply, 4)?;
    expect(rt, "recording 1\n", "nothing = done\n", Fault::Cut, 5)?;
    expect(
        rt,
        "recording 1\n",
        "nothing = done\nend 1 0\n",
        Fault::Changed,
        5,
    )
}

// The text of a title, the settings and some lines has this fault in this line.
fn expect(
    rt: &HostRuntime,
    title: &str,
    lines: &str,
    fault: Fault,
    line: usize,
) -> Result<(), Failure> {
    let mut text = String::new(rt.alloc());
    text.push_str(title)?;
    text.push_str(SETTINGS)?;
    text.push_str(lines)?;
    match load(rt.alloc(), text.as_bytes()) {
        Err(error) if error.fault == fault && error.line == line => Ok(()),
        Err(error) => {
            println!(rt; "{text}is refused otherwise: {error}")?;
            Err(Failure::Refuted)
        }
        Ok(_) => {
            println!(rt; "{text}is read")?;
            Err(Failure::Refuted)
        }
    }
}
