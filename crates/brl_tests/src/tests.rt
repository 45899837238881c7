//! The tests, by what they are about.
mod calls;
mod machines;
mod program;
mod tables;
