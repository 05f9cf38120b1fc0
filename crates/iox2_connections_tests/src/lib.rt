//! Tests of the ends, which call public items of `iox2_connections` as a domain does. It holds nothing else: a
//! crate with tests is proved twice, so the libraries have none.
#![tactic(auto)]

#[cfg(test)]
mod deliveries;
#[cfg(test)]
mod fixtures;
#[cfg(test)]
mod handlers;
