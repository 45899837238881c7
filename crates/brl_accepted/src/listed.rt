//! What is excused of the pairs of rules of a list.
ghost use Rattle.std.specs.Prelude.{◌≡◌, length};
ghost use Rattle.brl_accepted.specs.Reading.{accepted_count as accepted_among, excused_of, is_excused as is_excused_by};

use brl_pairs::Excused;

/// Whether a pair of rules is excused, wherever texts diverge at it.
pub fn is_excused(excused: &Excused, pair: (u32, u32)) -> bool
    ensures { result ≡ is_excused_by excused.now pair }
{
    let Excused {
        accepted,
        exchanged,
    } = excused;
    accepted.has(pair.0, pair.1) || exchanged.has(pair.0, pair.1)
}

/// How many of the listed pairs are excused.
pub fn excused_count(excused: &Excused, listed: &[(u32, u32)]) -> usize
    ensures { result ≡ length (excused_of excused.now listed.now) }
{
    listed
        .iter()
        .filter(|pair| is_excused(excused, **pair))
        .count()
}

/// How many of the listed pairs are accepted by lines of their own.
pub fn accepted_count(excused: &Excused, listed: &[(u32, u32)]) -> usize
    ensures { result ≡ accepted_among excused.now listed.now }
{
    let accepted = &excused.accepted;
    listed
        .iter()
        .filter(|pair| accepted.has(pair.0, pair.1))
        .count()
}
