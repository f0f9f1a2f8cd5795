//! Laws of the grammar, for all texts.

ghost use Rattle.std.specs.Prelude.{◌≡◌, ◌≢◌, ℕ, suc, Bool, true, List, Ok};
ghost use Rattle.rawk_keywords.specs.declared.token.Kind.TheVariants as k;
ghost use Rattle.rawk_lexer.specs.Lex.{kind};
ghost use Rattle.rawk_parsing.specs.declared.tree.Expr.{Expr};
ghost use Rattle.rawk_parsing.specs.declared.tree.Place.{Place};
ghost use Rattle.rawk_parsing.specs.Parser.{Input};
ghost use Rattle.rawk_expression.specs.Expression as spec;
ghost use Rattle.rawk_expression.specs.Grammar.{Derives, Whole, APlace, PrintList};
ghost use Rattle.rawk_expression.specs.Follow.{ends};

/// What `expression`, `place` and `printed` read is derived by the grammar, with fewer constructs open than the depth that they are
/// given.
pub fn sound()
    ensures whole { (d : ℕ) (p : Bool) (i : Input) (r : Expr × Input) → spec.expression (suc d) (spec.whole_of p) i ≡ Ok r → Derives d (Whole p r.0) i r.1 }
    ensures place { (d : ℕ) (i : Input) (r : Place × Input) → spec.lone_place (suc d) i ≡ Ok r → Derives d (APlace r.0) i r.1 }
    ensures printed { (d : ℕ) (i : Input) (r : List Expr × Input) → spec.printed (suc d) i ≡ Ok r → Derives d (PrintList r.0) i r.1 }
{}

/// They read each expression, place and list that is derived, before a token that ends it, as that tree.
pub fn complete()
    ensures whole { (d : ℕ) (p : Bool) (e : Expr) (i j : Input) → Derives d (Whole p e) i j → ends (kind j) ≡ true → spec.expression (suc d) (spec.whole_of p) i ≡ Ok (e, j) }
    ensures place { (d : ℕ) (y : Place) (i j : Input) → Derives d (APlace y) i j → kind j ≢ k.LeftBracket → spec.lone_place (suc d) i ≡ Ok (y, j) }
    ensures printed { (d : ℕ) (es : List Expr) (i j : Input) → Derives d (PrintList es) i j → ends (kind j) ≡ true → kind j ≢ k.Comma → spec.printed (suc d) i ≡ Ok (es, j) }
{}

/// An expression has one tree: two that are derived from one place on, within any limits and each before a token that ends it, are the
/// same.
pub fn unambiguous()
    ensures { (d q : ℕ) (p : Bool) (e f : Expr) (i j l : Input) → Derives d (Whole p e) i j → Derives q (Whole p f) i l → ends (kind j) ≡ true → ends (kind l) ≡ true → (e ≡ f) × (j ≡ l) }
{}
