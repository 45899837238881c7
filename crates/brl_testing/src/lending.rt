//! Values that a test lends. The proof of a function grows with what it owns at each of its exits,
//! so a test makes a table, a source or a list where it lends it, and owns nothing.
ghost use Rattle.std.specs.Fn.{FnOnceReturnsAt, FnOnceReturnsAtMut};

/// What a function answers for a value, which is dropped afterwards.
pub fn lend<V: Drop, T, F: FnOnce(&V) -> T>(value: V, answer: F) -> T
    requires { F.IsAlwaysCallable answer }
    ensures { FnOnceReturnsAt F.FnOnce answer value result }
{
    answer(&value)
}

/// What a function answers for a value that it may change, which is dropped afterwards.
pub fn lend_mut<V: Drop, T, F: FnOnce(&mut V) -> T>(value: V, answer: F) -> T
    requires { F.IsAlwaysCallable answer }
{
    let mut value = value;
    answer(&mut value)
}
