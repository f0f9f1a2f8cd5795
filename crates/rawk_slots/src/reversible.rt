//! A part of the state that can be changed and changed back.

ghost use Rattle.std.specs.Prelude.{◌≡◌, IfOk, OnErr};

use std::alloc::{AllocError, Global};

/// A part of the state whose changes can be taken back.
///
/// A change is a step of its own: what an earlier step changed stays. A part may keep slots that no program sees: they stay where they were added.
pub trait Reversible {
    type Change;

    type Undo;

    // What a program may see of a part.
    ghost Seen: { Type 0 };

    // What a program sees of this one.
    ghost sees: { Self → Seen };

    // The second is the first, perhaps with more that no program sees.
    ghost grown: { Self → Self → Type 0 };

    // The change leads from the first to the second.
    ghost makes: { Self → Self.Change → Self → Type 0 };

    // The entry leads from the first back to the second, perhaps with more that no program sees.
    ghost leads_back: { Self → Self.Undo → Self → Type 0 };

    /// Makes a change. It fails where memory is refused, and then nothing has changed that a program sees.
    fn apply(&mut self, alloc: Global, change: Self::Change) -> Result<Self::Undo, AllocError>
        ensures makes { IfOk result (λ undo. makes self.old change self.new) }
        ensures back { IfOk result (λ undo. (more : Self) → grown self.new more → leads_back more undo self.old) }
        ensures err { OnErr result (grown self.old self.new) };

    /// Takes a change back. It takes no memory and always succeeds.
    fn undo(&mut self, undo: &mut Self::Undo)
        requires { (earlier : Self) × leads_back self.old undo.old earlier }
        ensures { (earlier : Self) → leads_back self.old undo.old earlier → grown earlier self.new };

    // A part is itself, with nothing more.
    ghost grown_same: { (part : Self) → grown part part };

    // What is more is not seen.
    ghost grown_seen: { (old new : Self) → grown old new → sees new ≡ sees old };

    // A change makes one thing alone of a part, as far as is seen.
    ghost makes_one: { (old new other : Self) (change : Self.Change) → makes old change new → makes old change other → sees new ≡ sees other };
}
