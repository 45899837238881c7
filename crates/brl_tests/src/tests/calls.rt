//! Each call and type of the public surface, by its path. `examples` has what the heads of the
//! outward crates show.
mod accepted;
mod examples;
mod machines;
mod program;
mod tables;
mod verdicts;
