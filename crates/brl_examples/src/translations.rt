//! Worked translations.
ghost use Rattle.std.specs.Prelude.{◌≡◌, ◌∷◌, [], codes};
ghost use Rattle.brl_rules.specs.Examples.{contracted, whole_marked, numbers_with_points, two_cells};
ghost use Rattle.brl_rules.specs.Translation.{translation, IsClash};

/// Worked translations and a clash, computed from the definitions.
pub fn translation_examples()
    ensures contraction { translation contracted (codes "aab") ≡ 1 ∷ 9 ∷ [] }
    ensures words { translation whole_marked (codes "b but") ≡ 48 ∷ 3 ∷ 0 ∷ 3 ∷ [] }
    ensures numbers { translation numbers_with_points (codes "1.1") ≡ 60 ∷ 1 ∷ 50 ∷ 1 ∷ [] }
    ensures clash { IsClash two_cells (codes "ab") (codes "x") (1 ∷ 3 ∷ []) }
{}

#[test]
fn translations_are_as_worked() {
    translation_examples();
}
