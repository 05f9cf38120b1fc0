//! The boxes of the ports that have one for a handler.
ghost use Rattle.std.specs.Prelude.{◌≡◌, ◌≢◌, ◌<◌, ℕ, [], length, None, Some, MatchOption, OnOk};
ghost use Rattle.iox2_domain.specs.Boxes.{box_of, boxes_of, degradation_box_of};

use std::alloc::{AllocError, Global};
use std::marker::Model;

/// The boxes of a port: for full buffers, and for connections that can't be allocated.
#[derive(Drop)]
pub struct PortBoxes<F, G> {
    /// What it asks at a full buffer.
    pub backpressure: Option<F>,
    /// What it asks when it can't make a connection.
    pub degradation: Option<G>,
}

/// The boxes of the port with an id.
#[derive(Drop)]
pub struct PortBox<F, G> {
    id: u128,
    boxes: PortBoxes<F, G>,
}

/// The boxes that ports have for handlers. They are beside the state of a domain. There a port has
/// only the mark that it has one, so that a port without a box pays for none.
///
/// This library's own: iceoryx2 keeps a handler in its port.
#[derive(Drop)]
pub struct Boxes<F, G> {
    kept: Vec<PortBox<F, G>>,
}

impl<F, G> Model for Boxes<F, G> {
    ghost use Rattle.std.specs.Prelude.{vec_capacity};
    ghost use Rattle.iox2_domain.specs.Boxes.{KeptBoxes};

    ghost Value = { KeptBoxes F G };

    ghost view = { λ x. record { boxes = x.kept.items; room = vec_capacity x.kept } };
}

impl<F: Drop, G: Drop> Boxes<F, G> {
    /// No port has a box. It takes no memory.
    pub fn new(alloc: Global) -> Self
        ensures { result.boxes ≡ [] }
    {
        Boxes {
            kept: Vec::new(alloc),
        }
    }

    /// Makes room for the boxes of one port more.
    pub fn reserve_one(&mut self) -> Result<(), AllocError>
        ensures boxes { (self.new).boxes ≡ (self.old).boxes }
        ensures room { OnOk result (length (self.new).boxes < (self.new).room) }
    {
        self.kept.try_reserve(1)
    }

    /// The port with this id has these boxes from now on. There is room for them, so it takes no
    /// memory.
    pub fn add(&mut self, id: u128, boxes: PortBoxes<F, G>)
        requires { length (self.old).boxes < (self.old).room }
        ensures its { boxes_of id (self.new).boxes ≡ Some boxes }
        ensures others { (port : ℕ) → port ≢ id → boxes_of port (self.new).boxes ≡ boxes_of port (self.old).boxes }
    {
        self.kept.retain(|kept| kept.id != id);
        self.kept.push_reserved(PortBox { id, boxes });
    }

    /// The port with this id has no box any more.
    pub fn remove(&mut self, id: u128)
        ensures its { boxes_of id (self.new).boxes ≡ None }
        ensures others { (port : ℕ) → port ≢ id → boxes_of port (self.new).boxes ≡ boxes_of port (self.old).boxes }
    {
        self.kept.retain(|kept| kept.id != id);
    }

    // The boxes of the port with an id, if it has any.
    fn find(&self, id: u128) -> Option<&PortBoxes<F, G>>
        ensures { MatchOption result (boxes_of id (self.now).boxes ≡ None) (λ found. boxes_of id (self.now).boxes ≡ Some found.now) }
    {
        for kept in &self.kept {
            if kept.id == id {
                return Some(&kept.boxes);
            }
        }
        None
    }

    /// What the port with an id asks at a full buffer, if it has a box for that.
    pub fn of(&self, id: u128) -> Option<&F>
        ensures { MatchOption result (box_of id (self.now).boxes ≡ None) (λ f. box_of id (self.now).boxes ≡ Some f.now) }
    {
        match self.find(id) {
            Some(found) => found.backpressure.as_ref(),
            None => None,
        }
    }

    /// What the port with an id asks when it can't make a connection, if it has a box for that.
    pub fn degradation_of(&self, id: u128) -> Option<&G>
        ensures { MatchOption result (degradation_box_of id (self.now).boxes ≡ None) (λ g. degradation_box_of id (self.now).boxes ≡ Some g.now) }
    {
        match self.find(id) {
            Some(found) => found.degradation.as_ref(),
            None => None,
        }
    }
}
