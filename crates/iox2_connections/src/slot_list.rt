//! A slot in a list: among those borrowed from a connection, or among a publisher's loans.
ghost use Rattle.std.specs.Prelude.{◌≡◌, ◌+◌, ◌-◌, ◌≤◌, ◌↔◌, length, slice_get, Some, MatchOption, Contains, IsTrue};
ghost use Rattle.std.specs.Vec.{vec_capacity};
ghost use Rattle.iox2_machine.specs.machine.Numbers.{without};
ghost use Rattle.iox2_connections.specs.Counters.{times};

/// A place at which a slot is. It is looked for from both ends, since either the oldest or the
/// newest slots go first.
#[inline(never)]
fn place_of(slots: &[usize], slot: usize) -> Option<usize>
    ensures { MatchOption result (times slot slots.now ≡ 0) (λ place. slice_get slots.now place ≡ Some slot) }
{
    for place in 0..slots.len() {
        if slots[place] == slot {
            return Some(place);
        }
        let from_end = slots.len() - 1 - place;
        if slots[from_end] == slot {
            return Some(from_end);
        }
    }
    None
}

// Whether the slot is last.
fn is_last(slots: &[usize], slot: usize) -> bool
    ensures { IsTrue result ↔ (slice_get slots.now (length slots.now - 1) ≡ Some slot) }
{
    slots.last().is_some_and(|last| *last == slot)
}

/// Takes a slot out of a list that has it once at most; the others keep their order. If it is last,
/// there is no search and no shift.
pub fn take_slot(slots: &mut Vec<usize>, slot: usize)
    requires { times slot slots.old.items ≤ 1 }
    ensures items { slots.new.items ≡ without slot slots.old.items }
    ensures len { Contains slots.old.items slot → length slots.new.items + 1 ≡ length slots.old.items }
    ensures capacity { vec_capacity slots.new ≡ vec_capacity slots.old }
{
    if is_last(slots, slot) {
        slots.pop();
    } else {
        search_and_take(slots, slot);
    }
}

// The same, wherever the slot is.
#[inline(never)]
fn search_and_take(slots: &mut Vec<usize>, slot: usize)
    requires { times slot slots.old.items ≤ 1 }
    ensures items { slots.new.items ≡ without slot slots.old.items }
    ensures len { Contains slots.old.items slot → length slots.new.items + 1 ≡ length slots.old.items }
    ensures capacity { vec_capacity slots.new ≡ vec_capacity slots.old }
{
    if let Some(place) = place_of(slots, slot) {
        slots.remove(place);
    }
}
