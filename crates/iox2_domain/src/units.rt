//! The units of elements.
ghost use Rattle.std.specs.Prelude.{◌≡◌, ◌*◌, ◌^◌, ◌<◌, IsTrue, SomeIff};
ghost use Rattle.iox2_machine.specs.machine.Limits.{fits};
ghost use Rattle.iox2_domain.specs.Invariant.{lists_wanted};

use iox2_machine::ServiceConfig;

/// How many units `len` elements have.
#[inline(always)]
pub fn units_of(len: usize, units_per_element: usize) -> usize
    requires { 1 < len → len * units_per_element < 2 ^ 64 }
    ensures { result ≡ len * units_per_element }
{
    len * units_per_element
}

/// The size of `slots` slots of `len` elements, with `units` units each. `None` if it doesn't fit
/// `usize`.
pub fn segment_size(slots: usize, len: usize, units: usize) -> Option<usize>
    ensures { SomeIff result (IsTrue (fits (slots * len * units))) (slots * len * units) }
{
    if units == 0 {
        return Some(0);
    }
    slots.checked_mul(len)?.checked_mul(units)
}

/// How many lists of cells the settings ask for, of a publisher that may have `max_loaned_samples`
/// loans out.
pub fn lists_wanted(config: &ServiceConfig, max_loaned_samples: usize) -> usize
    ensures { result ≡ lists_wanted config.now max_loaned_samples }
{
    if config.lists_cells {
        max_loaned_samples.max(1)
    } else {
        0
    }
}
