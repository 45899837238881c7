//! The law of the kinds of pairs, which is the contract of a function that does nothing.
ghost use Rattle.std.specs.Prelude.{◌≡◌, List, length};
ghost use Rattle.std.specs.List.{sum_by};
ghost use Rattle.brl_clashes.specs.Screen.{all_kinds, count_of};
ghost use Rattle.brl_clashes.specs.declared.pair_kind.PairKind.{PairKind};

/// Each pair is of one kind: the numbers of all kinds add up to how many pairs there are.
pub fn kinds_law()
    ensures { (kinds : List PairKind) → sum_by (count_of kinds) all_kinds ≡ length kinds }
{}
