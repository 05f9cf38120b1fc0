use crate::error::ModelError;

// The port that is at a place; nothing past the end.
pub(crate) fn occupant(places: &[Option<usize>], place: usize) -> Option<usize> {
    let Some(port) = places.get(place) else {
        return None;
    };
    *port
}

// The list with this at a place; it grows where it is too short.
pub(crate) fn set_place(
    places: &mut Vec<Option<usize>>,
    place: usize,
    port: Option<usize>,
) -> Result<(), ModelError> {
    let missing = place.saturating_add(1).saturating_sub(places.len());
    for _ in 0..missing {
        places.push(None)?;
    }
    if let Some(found) = places.get_mut(place) {
        *found = port;
    }
    Ok(())
}

// The port's place is free.
pub(crate) fn vacate(places: &mut Vec<Option<usize>>, port: usize) {
    for place in 0..places.len() {
        if let Some(found) = places.get_mut(place) {
            if *found == Some(port) {
                *found = None;
            }
        }
    }
}

// The lowest place at which nothing is, if it is below the limit.
pub(crate) fn free_place(limit: usize, places: &[Option<usize>]) -> Option<usize> {
    let mut lowest = places.len();
    for place in 0..places.len() {
        if occupant(places, place).is_none() {
            lowest = place;
            break;
        }
    }
    if lowest < limit { Some(lowest) } else { None }
}
