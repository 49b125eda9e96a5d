//! What the rule says, part by part.

ghost use Rattle.std.specs.Prelude.{◌≡◌, ℕ, List, ◌∷◌, []};
ghost use Rattle.receipt_log.specs.declared.view.View.{View};
ghost use Rattle.receipt_log.specs.Rule.{Rule, IsLog};

/// The rule that every step of any seats keeps: there is one word, and it and all views are as `IsLog` says.
pub fn rule_says()
    ensures { (words : List ℕ) (views : List View) → Rule words views → (word : ℕ) × (words ≡ word ∷ []) × IsLog word views }
{}
