//! The handlers that a new port is given.
ghost use Rattle.std.specs.Prelude.{◌≡◌, ◌≢◌, ℕ, OnOk};
ghost use Rattle.iox2_domain.specs.Boxes.{box_of, boxes_of, degradation_box_of};
ghost use Rattle.iox2_domain.specs.Handlers.{handler_if_any};
ghost use Rattle.iox2_connections.specs.Handlers.{marks_of};
ghost use Rattle.iox2_ports.specs.Handlers.{HasRoomForBoxes, custom_box, has_box};

use iox2_domain::{Boxes, HandlerMark, PortBoxes};
use iox2_machine::{BackpressureAction, BackpressureHandler};
use std::alloc::AllocError;

/// What stands for the handler in its publisher.
pub(crate) fn mark_of<F>(
    handler: &Option<BackpressureHandler<F>>,
) -> Option<HandlerMark<BackpressureAction>>
    ensures { handler_if_any result ≡ marks_of handler.now }
{
    match handler {
        None => None,
        Some(BackpressureHandler::Fixed(action)) => Some(HandlerMark::Fixed(*action)),
        Some(BackpressureHandler::Custom(_)) => Some(HandlerMark::Custom),
    }
}

/// The box that the handler is, if it is one.
pub(crate) fn box_in<F: Drop>(handler: Option<BackpressureHandler<F>>) -> Option<F>
    ensures { result ≡ custom_box handler }
{
    match handler {
        Some(BackpressureHandler::Custom(function)) => Some(function),
        _ => None,
    }
}

// Whether there is any box.
fn has_box<F, G>(boxes: &PortBoxes<F, G>) -> bool
    ensures { result ≡ has_box boxes.now }
{
    boxes.backpressure.is_some() || boxes.degradation.is_some()
}

/// Makes room for a port's boxes, if there are any.
pub(crate) fn reserve_for<F: Drop, G: Drop>(
    kept: &mut Boxes<F, G>,
    boxes: &PortBoxes<F, G>,
) -> Result<(), AllocError>
    ensures same { (kept.new).boxes ≡ (kept.old).boxes }
    ensures room { OnOk result (HasRoomForBoxes boxes.now kept.new) }
{
    if has_box(boxes) {
        kept.reserve_one()
    } else {
        Ok(())
    }
}

/// Keeps the boxes for the port with this id, if there are any. It takes no memory.
pub(crate) fn keep_boxes<F: Drop, G: Drop>(kept: &mut Boxes<F, G>, id: u128, boxes: PortBoxes<F, G>)
    requires { HasRoomForBoxes boxes kept.old }
    ensures backpressure { box_of id (kept.new).boxes ≡ boxes.backpressure }
    ensures degradation { degradation_box_of id (kept.new).boxes ≡ boxes.degradation }
    ensures others { (port : ℕ) → port ≢ id → boxes_of port (kept.new).boxes ≡ boxes_of port (kept.old).boxes }
{
    if has_box(&boxes) {
        kept.add(id, boxes);
    } else {
        kept.remove(id);
    }
}
