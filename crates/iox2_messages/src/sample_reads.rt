//! What is read of borrowed messages.
ghost use Rattle.std.specs.Prelude.{◌≡◌, Some, [], ◌∷◌, false};
ghost use Rattle.iox2_machine.specs.SingleValues.{is_single_valued};
ghost use Rattle.iox2_machine.specs.machine.Records.{Entry};
ghost use Rattle.iox2_machine.specs.declared.service_config.TypeVariant.TheVariants.{FixedSize};
ghost use Rattle.iox2_domain.specs.Kept.{entries_of};
ghost use Rattle.iox2_domain.specs.Fields.{kept_of};
ghost use Rattle.iox2_domain.specs.Invariant.{IsDomain};
ghost use Rattle.iox2_domain.specs.SampleSlots.{LiesBorrowedInSlot};

use iox2_domain::{DomainState, SampleAt};
use iox2_machine::Header;

/// The value of a borrowed message.
pub fn sample_payload<'a, T: Drop, U: Default + Drop>(
    state: &'a DomainState<T, U>,
    sample: &SampleAt,
) -> &'a T
    requires agrees { IsDomain state.now }
    requires fixed_size { (state.now.config).variant ≡ FixedSize }
    requires single { (state.now.config).units_per_element ≡ 1 }
    requires lies { LiesBorrowedInSlot state.now sample.now.subscriber sample.now.number (record { book = sample.now.book; slot = sample.now.slot }) }
    ensures { (entry : Entry T U) × (entries_of (kept_of state.now) sample.now.number ≡ Some entry) × (entry.values ≡ result.now ∷ []) }
{
    let Some(contents) = &state.contents[sample.book] else {
        unreachable!()
    };
    contents.value(sample.slot)
}

/// The values of a borrowed message, where messages aren't single values.
pub fn sample_payloads<'a, T: Drop, U: Default + Drop>(
    state: &'a DomainState<T, U>,
    sample: &SampleAt,
) -> &'a [T]
    requires agrees { IsDomain state.now }
    requires several { is_single_valued state.now.config ≡ false }
    requires lies { LiesBorrowedInSlot state.now sample.now.subscriber sample.now.number (record { book = sample.now.book; slot = sample.now.slot }) }
    ensures { (entry : Entry T U) × (entries_of (kept_of state.now) sample.now.number ≡ Some entry) × (entry.values ≡ result.now) }
{
    let Some(contents) = &state.contents[sample.book] else {
        unreachable!()
    };
    contents.values(sample.slot)
}

/// The header of a borrowed message.
pub fn sample_header<'a, T: Drop, U: Default + Drop>(
    state: &'a DomainState<T, U>,
    sample: &SampleAt,
) -> &'a Header
    requires agrees { IsDomain state.now }
    requires lies { LiesBorrowedInSlot state.now sample.now.subscriber sample.now.number (record { book = sample.now.book; slot = sample.now.slot }) }
    ensures { (entry : Entry T U) × (entries_of (kept_of state.now) sample.now.number ≡ Some entry) × (entry.header ≡ result.now) }
{
    state.books[sample.book].header(sample.slot)
}

/// The user header of a borrowed message.
pub fn sample_user_header<'a, T: Drop, U: Default + Drop>(
    state: &'a DomainState<T, U>,
    sample: &SampleAt,
) -> &'a U
    requires agrees { IsDomain state.now }
    requires lies { LiesBorrowedInSlot state.now sample.now.subscriber sample.now.number (record { book = sample.now.book; slot = sample.now.slot }) }
    ensures { (entry : Entry T U) × (entries_of (kept_of state.now) sample.now.number ≡ Some entry) × (entry.user_header ≡ result.now) }
{
    let Some(contents) = &state.contents[sample.book] else {
        unreachable!()
    };
    contents.user_header(sample.slot)
}
