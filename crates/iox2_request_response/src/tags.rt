//! What this library writes into the user headers of messages.

/// Of a request: who waits for its responses, and its number.
#[derive(Default, Drop)]
pub(crate) struct RequestTag {
    // The id of the subscriber that receives the responses to this request alone.
    pub(crate) slot: u128,
    pub(crate) number: u64,
}

/// Of a response: the number of its request.
#[derive(Default, Drop)]
pub(crate) struct ResponseTag {
    pub(crate) number: u64,
}
