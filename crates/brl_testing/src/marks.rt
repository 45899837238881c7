//! Marks of where calls begin and end.
use std::fs::File;
use std::rt::Files;

/// Marks where calls begin in which memory may run out, and then where they end: tests/faulty.c
/// counts allocations between two opens of this path.
pub fn mark<R: Files>(system: &R) {
    let _ = File::open(system, "/brl/mark");
}
