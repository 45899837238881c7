//! Worked certificates.
ghost use Rattle.std.specs.Prelude.{◌≡◌, ◌∷◌, [], codes, Ok};
ghost use Rattle.brl_cert.specs.Reading.{spelling, reading};
ghost use Rattle.brl_examples.specs.Certificates.{lines, three_states, three_lines, start_alone, faulty, AreRefused};

/// Worked certificates and faults, computed from the definitions.
pub fn certificate_examples()
    ensures spelled { spelling three_states ≡ lines three_lines }
    ensures read { reading (lines three_lines) ≡ Ok three_states }
    ensures start { reading (lines (codes "BRLCERT 1" ∷ codes "state 1 0 0 -" ∷ codes "end 1 0" ∷ [])) ≡ Ok start_alone }
    ensures refused { AreRefused faulty }
{}

#[test]
fn certificates_are_as_worked() {
    certificate_examples();
}
