/// What is sent: a temperature. It is neither `Copy` nor `Clone`: a message isn't copied on its way.
#[derive(Drop)]
pub struct Reading {
    /// Degrees Celsius.
    pub celsius: u32,
}
