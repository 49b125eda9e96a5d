//! What the rule says, part by part.

ghost use Rattle.std.specs.Prelude.{◌≡◌, ℕ, List, ◌∷◌, []};
ghost use Rattle.walls_out.specs.declared.view.View.{View};
ghost use Rattle.walls_out.specs.Counting.{Rule};
ghost use Rattle.walls_out.specs.Rule.{IsCounting};

/// The rule that every step of any seats keeps: there is one word, and it and all views are as `IsCounting` says.
pub fn rule_says()
    ensures { (words : List ℕ) (views : List View) → Rule words views → (word : ℕ) × (words ≡ word ∷ []) × IsCounting word views }
{}
