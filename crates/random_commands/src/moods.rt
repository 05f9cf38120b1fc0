//! What a script does for a while.
use crate::chance::Chance;

// What a script does mostly.
#[derive(Clone, Copy, PartialEq, Eq)]
pub(crate) enum Mood {
    // It makes subscribers, as many as there may be.
    Crowd,
    Ports,
    Messages,
    Receives,
    Releases,
    Closes,
    // It takes loans, and changes and reads them where they lie.
    Changes,
    Everything,
}

// What the next command is to do.
#[derive(Clone, Copy)]
pub(crate) enum Wish {
    MakePublisher,
    MakeSubscriber,
    // A step on the way of a message: its loan, its value or its send.
    Message,
    Loan,
    Change,
    Discard,
    Receive,
    Ask,
    Read,
    Release,
    Update,
    ClosePublisher,
    CloseSubscriber,
    // A channel is asked about or changed, or a loan is sent to one connection.
    Channel,
    // Any command on any position.
    Anything,
}

pub(crate) fn draw_mood(chance: &mut Chance) -> Mood {
    match chance.below(8) {
        0 => Mood::Ports,
        1 | 2 => Mood::Messages,
        3 => Mood::Receives,
        4 => Mood::Releases,
        5 => Mood::Closes,
        6 => Mood::Changes,
        _ => Mood::Everything,
    }
}

pub(crate) fn draw_wish(chance: &mut Chance, mood: Mood) -> Wish {
    if mood != Mood::Crowd && chance.below(14) < 3 {
        return Wish::Channel;
    }
    if chance.one_in(8) {
        return any_wish(chance);
    }
    match mood {
        Mood::Crowd => Wish::MakeSubscriber,
        Mood::Ports if chance.one_in(3) => Wish::MakePublisher,
        Mood::Ports => Wish::MakeSubscriber,
        Mood::Messages => Wish::Message,
        Mood::Receives => Wish::Receive,
        Mood::Releases => Wish::Release,
        Mood::Closes => closing_wish(chance),
        Mood::Changes => changing_wish(chance),
        Mood::Everything => any_wish(chance),
    }
}

fn closing_wish(chance: &mut Chance) -> Wish {
    match chance.below(9) {
        0 | 1 => Wish::ClosePublisher,
        2 => Wish::CloseSubscriber,
        3 | 4 => Wish::MakePublisher,
        5 => Wish::MakeSubscriber,
        6 | 7 => Wish::Message,
        _ => Wish::Receive,
    }
}

fn changing_wish(chance: &mut Chance) -> Wish {
    match chance.below(6) {
        0 => Wish::Loan,
        1..=3 => Wish::Change,
        4 => Wish::Read,
        _ => Wish::Message,
    }
}

fn any_wish(chance: &mut Chance) -> Wish {
    match chance.below(20) {
        0 => Wish::MakePublisher,
        1 => Wish::MakeSubscriber,
        2..=6 => Wish::Message,
        7 => Wish::Loan,
        8 => Wish::Change,
        9 => Wish::Discard,
        10..=12 => Wish::Receive,
        13 => Wish::Ask,
        14 => Wish::Read,
        15 => Wish::Release,
        16 => Wish::Update,
        17 => closing_wish(chance),
        _ => Wish::Anything,
    }
}
