//! What leads from each handle of slices to the handle of single values that it is, and back.
ghost use Rattle.std.specs.Prelude.{◌≡◌};

use crate::port_factory::handles::PortHandle;
use crate::slice::{Publisher, SampleMut, SampleMutUninit, Subscriber};
use std::ops::Deref;

impl Deref for Publisher {
    type Target = crate::Publisher;

    ghost deref_gives = { λ handle inner. inner ≡ handle.publisher };

    #[inline(always)]
    fn deref(&self) -> &crate::Publisher {
        &self.publisher
    }
}

impl Publisher {
    ghost use Rattle.iox2_pubsub.specs.Handles.{as_publisher};

    /// The same publisher, as one of slices. This library's own.
    pub fn new(publisher: crate::Publisher) -> Publisher
        ensures { as_publisher result ≡ publisher }
    {
        Publisher { publisher }
    }

    /// The same publisher, as one of single values. This library's own.
    pub fn into_inner(self) -> crate::Publisher
        ensures { result ≡ as_publisher self }
    {
        let Publisher { publisher } = self;
        publisher
    }

    /// Consumes the handle of a publisher whose domain is gone. A domain that is still there isn't
    /// told, and keeps the publisher. This library's own.
    pub fn disown(self) {
        self.into_inner().disown();
    }
}

impl PortHandle<crate::Publisher> for Publisher {
    ghost as_port = { λ handle. handle.publisher };

    fn of_port(port: crate::Publisher) -> Publisher {
        Publisher::new(port)
    }
}

impl Deref for Subscriber {
    type Target = crate::Subscriber;

    ghost deref_gives = { λ handle inner. inner ≡ handle.subscriber };

    #[inline(always)]
    fn deref(&self) -> &crate::Subscriber {
        &self.subscriber
    }
}

impl Subscriber {
    ghost use Rattle.iox2_pubsub.specs.Handles.{as_subscriber};

    /// The same subscriber, as one of slices. This library's own.
    pub fn new(subscriber: crate::Subscriber) -> Subscriber
        ensures { as_subscriber result ≡ subscriber }
    {
        Subscriber { subscriber }
    }

    /// The same subscriber, as one of single values. This library's own.
    pub fn into_inner(self) -> crate::Subscriber
        ensures { result ≡ as_subscriber self }
    {
        let Subscriber { subscriber } = self;
        subscriber
    }

    /// Consumes the handle of a subscriber whose domain is gone. A domain that is still there isn't
    /// told, and keeps the subscriber. This library's own.
    pub fn disown(self) {
        self.into_inner().disown();
    }
}

impl PortHandle<crate::Subscriber> for Subscriber {
    ghost as_port = { λ handle. handle.subscriber };

    fn of_port(port: crate::Subscriber) -> Subscriber {
        Subscriber::new(port)
    }
}

impl Deref for SampleMutUninit {
    type Target = crate::SampleMutUninit;

    ghost deref_gives = { λ handle inner. inner ≡ handle.sample };

    #[inline(always)]
    fn deref(&self) -> &crate::SampleMutUninit {
        &self.sample
    }
}

impl SampleMutUninit {
    ghost use Rattle.iox2_pubsub.specs.Handles.{as_unwritten};

    /// The same loan, as one of a slice. This library's own.
    pub fn new(sample: crate::SampleMutUninit) -> SampleMutUninit
        ensures { as_unwritten result ≡ sample }
    {
        SampleMutUninit { sample }
    }

    /// The same loan, as one of a single value. This library's own.
    pub fn into_inner(self) -> crate::SampleMutUninit
        ensures { result ≡ as_unwritten self }
    {
        let SampleMutUninit { sample } = self;
        sample
    }

    /// Consumes the handle of a loan whose domain is gone. A domain that is still there isn't told,
    /// and keeps the loan. This library's own.
    pub fn disown(self) {
        self.into_inner().disown();
    }
}

impl Deref for SampleMut {
    type Target = crate::SampleMut;

    ghost deref_gives = { λ handle inner. inner ≡ handle.sample };

    #[inline(always)]
    fn deref(&self) -> &crate::SampleMut {
        &self.sample
    }
}

impl SampleMut {
    ghost use Rattle.iox2_pubsub.specs.Handles.{as_written};

    /// The same loan, as one of a slice. This library's own.
    pub fn new(sample: crate::SampleMut) -> SampleMut
        ensures { as_written result ≡ sample }
    {
        SampleMut { sample }
    }

    /// The same loan, as one of a single value. This library's own.
    pub fn into_inner(self) -> crate::SampleMut
        ensures { result ≡ as_written self }
    {
        let SampleMut { sample } = self;
        sample
    }

    /// Consumes the handle of a loan whose domain is gone. A domain that is still there isn't told,
    /// and keeps the loan. This library's own.
    pub fn disown(self) {
        self.into_inner().disown();
    }
}
