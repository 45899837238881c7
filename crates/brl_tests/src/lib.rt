//! Tests. They are one crate, so that they are compiled once, and apart, so that no library is
//! proved once more with its tests.
#![tactic(auto)]

#[cfg(test)]
mod tests;
