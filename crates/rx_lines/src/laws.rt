// What holds of every session.
ghost use Rattle.std.specs.Prelude.{◌≡◌, ◌≤◌, ℕ, List, Some, slice_get};
ghost use Rattle.rx_rules.specs.declared.entries.Entry.{Entry};
ghost use Rattle.rx_rules.specs.Laws.{NoEarlyRelease, LossExact};
ghost use Rattle.rx_rules.specs.Inversions.{MaskedMeansLost};
ghost use Rattle.rx_lines.specs.Session.{IsSession};
ghost use Rattle.rx_lines.specs.Determined.{OneText, OneTextWithEnough};

/// A law of contracts: whatever the input is, nothing that a session tells of was released early, each release names exactly the places
/// that lost its tasks, and masked faults come with losses.
pub fn sessions_keep_the_laws()
    ensures early { (p : ℕ) (bytes text : List ℕ) → 1 ≤ p → p ≤ 16 → (s : IsSession p bytes text)
        → NoEarlyRelease s.after.entries }
    ensures exact { (p : ℕ) (bytes text : List ℕ) → 1 ≤ p → p ≤ 16 → (s : IsSession p bytes text)
        → LossExact s.after.entries }
    ensures masked { (p : ℕ) (bytes text : List ℕ) → 1 ≤ p → p ≤ 16 → (s : IsSession p bytes text)
        → (i : ℕ) (e : Entry) → slice_get s.after.entries i ≡ Some e → MaskedMeansLost e }
{
    rx_history_laws::nothing_is_early();
    rx_history_laws::losses_are_exact();
    rx_history_laws::masked_is_lost();
}

/// A law of contracts: one input has one text. Whatever two sessions with the same bytes and as many places are, they tell the same where
/// the same ran out for the same lines; and so they do where memory and numbers ran out for nothing.
pub fn sessions_have_one_text()
    ensures same { OneText }
    ensures enough { OneTextWithEnough }
{}
