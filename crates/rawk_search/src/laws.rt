//! Laws of what is found, for every expression and text: the contracts say them, and the bodies do nothing.

ghost use Rattle.std.specs.Prelude.{◌≡◌, ◌≤◌, ◌<◌, ◌↔◌, ℕ, Bool, true, List, ◌++◌, length, map, Option, None, Some};
ghost use Rattle.rawk_ere_tree.specs.Cuts.{AreCuts};
ghost use Rattle.rawk_ere_tree.specs.Ends.{Ends, IsMatch};
ghost use Rattle.rawk_ere_tree.specs.Open.{Needs, IsNonempty};
ghost use Rattle.rawk_ere_tree.specs.Tree.{Tree, IsWithinLimits};
ghost use Rattle.rawk_ere_pattern.specs.PatternOf.{IsPatternOf};
ghost use Rattle.rawk_ere.specs.Search.{AreBetween};
ghost use Rattle.rawk_search.specs.declared.span.Span.{Span};
ghost use Rattle.rawk_search.specs.Expressions as patterns;
ghost use Rattle.rawk_search.specs.Found.{span_of, spans_of};
ghost use Rattle.rawk_search.specs.Matches as spec;
ghost use Rattle.rawk_search.specs.Repeats.{IsAmong};
ghost use Rattle.rawk_search.specs.Replacements as replacements;

/// `ends` lists the places where matches end, and `needs` is true where what follows the text is wanted.
pub fn places()
    ensures ends { (closed : Bool) (s : List ℕ) (e : Tree) (i j : ℕ) → Ends closed s e i j ↔ IsAmong (spec.ends closed s e i) j }
    ensures needs { (s : List ℕ) (e : Tree) (i : ℕ) → Needs s e i ↔ (spec.needs s e i ≡ true) }
{}

/// `first_match` is the leftmost match, and the longest there; `first_nonempty` that of those that are not empty.
pub fn matches()
    ensures first { (s : List ℕ) (e : Tree) (p : ℕ) (o : Option (ℕ × ℕ)) → IsMatch s e p o → AreBetween p (length s) o → spec.first_match s e p ≡ spans_of o }
    ensures some { (closed : Bool) (s : List ℕ) (e : Tree) (p : ℕ) (m : ℕ × ℕ) → IsNonempty closed s e p m ↔ (spec.first_nonempty closed s e p ≡ Some (span_of m)) }
    ensures none { (closed : Bool) (s : List ℕ) (e : Tree) (p : ℕ) → ((i j : ℕ) → p ≤ i → i < j → Ends closed s e i j → ⊥) ↔ (spec.first_nonempty closed s e p ≡ None) }
{}

/// A match that is settled is the one that is found in every longer text, whether or not that goes on.
pub fn settled()
    ensures found { (closed : Bool) (s more : List ℕ) (e : Tree) (p : ℕ) (m : Span) → spec.open_match s e p ≡ Some m → spec.first_nonempty closed (s ++ more) e p ≡ Some m }
    ensures stays { (s more : List ℕ) (e : Tree) (p : ℕ) (m : Span) → spec.open_match s e p ≡ Some m → spec.open_match (s ++ more) e p ≡ Some m }
{}

/// `ere_of` is the tree that the grammar gives a pattern, if that is within the limits.
pub fn expressions()
    ensures { (pattern : List ℕ) (e : Tree) → (IsPatternOf pattern e × IsWithinLimits e) ↔ (Some e ≡ patterns.ere_of pattern) }
{}

/// `cuts` lists the matches that a replacement of all takes.
pub fn cuts()
    ensures { (s : List ℕ) (e : Tree) (ms : List (ℕ × ℕ)) → AreCuts s e ms ↔ (replacements.cuts s e ≡ map span_of ms) }
{}
