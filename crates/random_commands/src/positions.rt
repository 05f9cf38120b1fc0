//! Positions of commands.
use crate::chance::Chance;
use iox2_model::{Kind, Model};

// The position of some command that made such a thing, which is still live.
pub(crate) fn live(chance: &mut Chance, model: &Model, kind: Kind) -> Option<usize> {
    let count = model.command_count();
    let start = chance.below(count);
    for of in start..count {
        if model.is_live(of, kind) {
            return Some(of);
        }
    }
    for of in 0..start {
        if model.is_live(of, kind) {
            return Some(of);
        }
    }
    None
}

// The same, or any position where there is none.
pub(crate) fn live_or_any(chance: &mut Chance, model: &Model, kind: Kind) -> usize {
    match live(chance, model, kind) {
        Some(of) => of,
        None => any(chance, model),
    }
}

// A position of any command so far, or of one that isn't there.
pub(crate) fn any(chance: &mut Chance, model: &Model) -> usize {
    if chance.one_in(16) {
        usize::MAX
    } else {
        chance.below(model.command_count().saturating_add(2))
    }
}
