//! Tests of `call_recorder`, which call its public items as `iox2_c` does.
#![tactic(auto)]

#[cfg(test)]
mod tests;
