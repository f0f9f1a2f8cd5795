//! Laws of the grammar, for all texts.

ghost use Rattle.std.specs.Prelude.{◌≡◌, ◌≤◌, ℕ, List};
ghost use Rattle.rawk_grammar.specs.declared.tree.Item.{Item};
ghost use Rattle.rawk_grammar.specs.Texts.{IsText};

/// A text is one program at most: items that the grammar gives it, within any limits, are the same.
pub fn unambiguous()
    ensures { (depth other : ℕ) (a b : List Item) (text : List ℕ) → IsText depth a text → IsText other b text → a ≡ b }
{}

/// A higher limit takes no text away.
pub fn limit_only_refuses()
    ensures { (depth other : ℕ) (items : List Item) (text : List ℕ) → depth ≤ other → IsText depth items text → IsText other items text }
{}
