//! The fields of a domain.
ghost use Rattle.std.specs.Prelude.{◌≡◌, IfOk};
ghost use Rattle.iox2_domain.specs.FreshFields.{IsFresh};

use crate::publisher_state::PublisherState;
use crate::subscriber_state::SubscriberState;
use crate::warnings::Warnings;
use iox2_connections::Connection;
use iox2_contents::Contents;
use iox2_machine::ServiceConfig;
use iox2_slots::SlotBook;
use slab::Slab;
use std::alloc::{AllocError, Global};
use std::marker::Model;

/// All that a domain keeps. Each call that changes it asks that its fields agree (`IsDomain`) and
/// leaves them so.
#[derive(Drop)]
pub struct DomainState<T, U> {
    pub alloc: Global,
    pub config: ServiceConfig,
    pub next_port: u128,
    pub next_message: u128,
    pub warnings: Warnings,
    // The publisher at each place.
    pub publishers: Vec<Option<PublisherState>>,
    // The subscriber at each place.
    pub subscribers: Vec<Option<SubscriberState>>,
    pub connections: Slab<Connection>,
    pub books: Slab<SlotBook>,
    // At the key of each book what is in its slots
    // (docs/DECISIONS.md, "Book and contents aren't one record").
    pub contents: Vec<Option<Contents<T, U>>>,
}

impl<T, U> Model for DomainState<T, U> {
    ghost use Rattle.iox2_domain.specs.Fields.{Fields};

    ghost Value = { Fields T U };

    ghost view = { λ state. record {
      config = state.config;
      next_port = state.next_port;
      next_message = state.next_message;
      warnings = state.warnings;
      publishers = state.publishers.items;
      subscribers = state.subscribers.items;
      connections = state.connections;
      books = state.books;
      contents = state.contents.items;
    } };
}

impl<T: Drop, U: Default + Drop> DomainState<T, U> {
    /// No port, connection or message. Fails if memory for the warnings is refused.
    pub fn new(alloc: Global, config: ServiceConfig) -> Result<Self, AllocError>
        ensures { IfOk result (IsFresh config) }
    {
        let warnings = Warnings::new(alloc)?;
        Ok(DomainState {
            alloc,
            config,
            next_port: 1,
            next_message: 1,
            warnings,
            publishers: Vec::new(alloc),
            subscribers: Vec::new(alloc),
            connections: Slab::new(alloc),
            books: Slab::new(alloc),
            contents: Vec::new(alloc),
        })
    }

    /// The settings of the service.
    pub fn config(&self) -> &ServiceConfig
        ensures { result.now ≡ self.now.config }
    {
        &self.config
    }

    /// How many connections couldn't be allocated. `u64::MAX` means that many or more.
    pub fn refused_connections(&self) -> u64
        ensures { result ≡ (self.now.warnings).items.refused_connections }
    {
        self.warnings.refused_connections()
    }
}
