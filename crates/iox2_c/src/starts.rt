//! Where bytes are, for C. No clause says what is there, since none speaks of memory that the domain
//! owns.

use std::ptr;
use std::ptr::NonNull;

// Where no bytes lie.
const NOTHING: &u8 = &0;

/// Where the bytes begin (docs/DECISIONS.md, "What a clause says of a pointer for C").
pub fn start_of(bytes: &[u8]) -> *const u8 {
    match bytes.first() {
        Some(first) => ptr::from_ref(first),
        None => nowhere(),
    }
}

// Where no bytes lie. Few messages have none, so it is out of the way of those that have.
#[cold]
#[inline(never)]
fn nowhere() -> *const u8 {
    ptr::from_ref(NOTHING)
}

/// The same of bytes that may be written.
pub fn start_to_write(bytes: &[u8]) -> *mut u8 {
    match bytes.first() {
        Some(first) => NonNull::from_ref(first).as_ptr(),
        None => nowhere_to_write(),
    }
}

/// The same of a first byte, if there is one.
pub fn start_if_any(first: Option<NonNull<u8>>) -> *mut u8 {
    match first {
        Some(first) => first.as_ptr(),
        None => nowhere_to_write(),
    }
}

// The same.
#[cold]
#[inline(never)]
fn nowhere_to_write() -> *mut u8 {
    NonNull::from_ref(NOTHING).as_ptr()
}
