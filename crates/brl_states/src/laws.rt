//! Laws of the definitions, for the crates above: each function has an empty body, and its contract
//! is the law.
ghost use Rattle.std.specs.Prelude.{◌≡◌, ◌↔◌, All, IsTrue, List, Contains};
ghost use Rattle.brl_states.specs.Order.{AreDues, in_order, is_proper};
ghost use Rattle.brl_states.specs.declared.due.Due.{Due as DueValue};

/// Putting dues in order keeps those that are in order; it makes proper dues ones that a state may
/// have; and it keeps their members.
pub fn order_law()
    ensures kept { (dues : List DueValue) → AreDues dues → in_order dues ≡ dues }
    ensures made { (dues : List DueValue) → All (λ due. IsTrue (is_proper due)) dues → AreDues (in_order dues) }
    ensures members { (dues : List DueValue) (due : DueValue) → Contains (in_order dues) due ↔ Contains dues due }
{}
