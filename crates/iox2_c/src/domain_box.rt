// A box as its pointer, or none.
ghost use Rattle.std.specs.Prelude.{◌≡◌, Option, Some, None, MatchOption};
ghost use Rattle.iox2_c.specs.Serving.{Serving};

use crate::loose::Loose;
use crate::service::Service;
use std::alloc::Global;
use std::marker::Model;
use std::mem;
use std::ptr::null_mut;

#[repr(C)]
#[derive(Drop)]
pub struct Opaque {
    _unused: u64,
}

// (docs/DECISIONS.md, "C owns a domain by a struct of one pointer")
#[repr(C)]
#[derive(Drop)]
pub struct DomainBox {
    at: *mut Opaque,
    alloc: Global,
    ghost service: { Option Serving },
}

impl Model for DomainBox {
    ghost use Rattle.iox2_c.specs.Holding.{holding};
    ghost use Rattle.iox2_c.specs.contracts.service.Service.{the_row};

    ghost also_owns = { λ h. holding the_row h.alloc h.at h.service };
}

impl DomainBox {
    ghost use Rattle.std.specs.Borrow.{sem};
    ghost use Rattle.iox2_c.specs.Lending.{LendsService};

    fn empty(alloc: Global) -> DomainBox
        ensures { result.service ≡ None }
    {
        DomainBox {
            at: null_mut(),
            alloc,
        }
    }

    fn close(loose: Loose<Service, Global>) -> DomainBox
        ensures { result.service ≡ Some loose.value }
    {
        let Loose { at, alloc } = loose;
        DomainBox {
            at: at as *mut Opaque,
            alloc,
        }
    }

    fn open(self) -> Option<Loose<Service, Global>>
        ensures { MatchOption result (self.service ≡ None) (λ loose. self.service ≡ Some loose.value) }
    {
        let DomainBox { at, alloc } = self;
        if at.is_null() {
            None
        } else {
            Some(Loose {
                at: at as *mut Service,
                alloc,
            })
        }
    }

    /// The domain in the box, where there is one, to be called there.
    pub fn service(&mut self) -> Option<&mut Service>
        ensures* lends { sem 𝓛 (LendsService self.entry result) }
        ensures value { MatchOption result (self.old.service ≡ None) (λ service. self.old.service ≡ Some service.now) }
    {
        let at = self.at;
        if at.is_null() {
            None
        } else {
            Some(unsafe { &mut *(at as *mut Service) })
        }
    }

    pub fn take(&mut self, alloc: Global) -> Option<Box<Service>>
        ensures taken { MatchOption result (self.old.service ≡ None) (λ boxed. self.old.service ≡ Some boxed.value) }
        ensures empty { self.new.service ≡ None }
    {
        let loose = mem::replace(self, DomainBox::empty(alloc)).open()?;
        Some(loose.into_box())
    }

    pub fn put(&mut self, boxed: Box<Service>)
        ensures { self.new.service ≡ Some boxed.value }
    {
        *self = DomainBox::close(Loose::of(boxed));
    }
}
