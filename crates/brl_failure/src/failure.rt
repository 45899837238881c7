//! A fault, or out of memory.
ghost use Rattle.std.specs.Prelude.{◌≡◌, IfErr};
ghost use Rattle.brl_failure.specs.Failure.{IfFault, IsChanged, IsRaised};
ghost use Rattle.brl_failure.specs.declared.failure.Failure.TheVariants.{Fault, Memory};

use std::alloc::{AllocError, AllocFailed};
use std::error::Error;
use std::fmt;

/// Why a call returns no value: its definition gives a fault for the input, or an allocation
/// failed. Memory may run out in any call, so only a fault depends on the input.
#[derive(Clone, Copy, PartialEq, Eq, Debug, Drop)]
pub enum Failure<E> {
    Fault(E),
    Memory,
}

impl<E> Failure<E> {
    /// This failure, with its fault converted.
    pub fn map<F, G: FnOnce(E) -> F>(self, change: G) -> Failure<F>
        requires { IfFault (G.pre change) self }
        ensures { IsChanged (G.post change) self result }
    {
        match self {
            Failure::Fault(fault) => Failure::Fault(change(fault)),
            Failure::Memory => Failure::Memory,
        }
    }
}

impl<E: fmt::Display> fmt::Display for Failure<E> {
    fn fmt<W: fmt::Write>(&self, f: &mut fmt::Formatter<W>) -> Result<(), fmt::Error> {
        match self {
            Failure::Fault(fault) => fault.fmt(f),
            Failure::Memory => f.write_str("Memory"),
        }
    }
}

impl<E: Error> Error for Failure<E> {}

impl<E: Drop> From<AllocError> for Failure<E> {
    ghost from_gives = { λ _ failure. failure ≡ Memory };

    fn from(_error: AllocError) -> Failure<E> {
        Failure::Memory
    }
}

impl<E: Drop, T: Drop> From<AllocFailed<T>> for Failure<E> {
    ghost from_gives = { λ _ failure. failure ≡ Memory };

    fn from(_refused: AllocFailed<T>) -> Failure<E> {
        Failure::Memory
    }
}

/// Converts the fault of a step to one of its caller; a value and running out of memory are passed
/// on.
pub fn raise<A, E, F, G: FnOnce(E) -> F>(
    step: Result<A, Failure<E>>,
    change: G,
) -> Result<A, Failure<F>>
    requires { IfErr step (IfFault (G.pre change)) }
    ensures { IsRaised (G.post change) step result }
{
    match step {
        Ok(value) => Ok(value),
        Err(failure) => Err(failure.map(change)),
    }
}
