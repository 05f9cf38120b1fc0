//! What answers for a port.
ghost use Rattle.iox2_domain.specs.Boxes.{BoxAnswers, box_of};

use crate::boxes::Boxes;
use iox2_machine::{BackpressureAction, BackpressureFn, BackpressureInfo};

/// What a port has for a handler. A box isn't in the port itself, but among the boxes of its
/// domain.
///
/// This library's own: iceoryx2 keeps the box in the port.
#[derive(Debug, Clone, Copy, PartialEq, Eq)]
pub enum HandlerMark<A> {
    /// It always answers with this action.
    Fixed(A),
    /// It is a box.
    Custom,
}

/// Asks the box of the publisher with an id, which is looked for each time. If there is none, the
/// strategy is followed
/// (docs/DECISIONS.md, "A box that isn't there follows the strategy").
#[derive(Drop)]
pub struct AskedBox<'a, F, G> {
    pub(crate) boxes: &'a Boxes<F, G>,
    pub(crate) id: u128,
}

impl<F: BackpressureFn, G: Drop> BackpressureFn for AskedBox<'_, F, G> {
    ghost allows = { λ asked info action. BoxAnswers F.allows (box_of asked.id (asked.boxes.now).boxes) info action };

    fn call(&self, info: &BackpressureInfo) -> BackpressureAction {
        match self.boxes.of(self.id) {
            Some(function) => function.call(info),
            None => BackpressureAction::FollowBackpressureyStrategy,
        }
    }
}
