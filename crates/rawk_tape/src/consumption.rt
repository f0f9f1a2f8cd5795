//! The change of a tape, and the way back.
ghost use Rattle.std.specs.Prelude.{◌≡◌, ◌≤◌, Ok, IfOk, OnErr, length};
ghost use Rattle.rawk_tape.specs.Tapes.{TapeState, LeadsBack, ReadsAhead, consumed_by};

use crate::Tape;
use rawk_devices::Source;
use rawk_slots::Reversible;
use std::alloc::{AllocError, Global};

/// How many of the bytes kept are consumed then; a count of more than are kept changes nothing.
#[derive(Clone, Copy, PartialEq, Eq)]
pub struct Consumption {
    /// The count, from the first byte kept on.
    pub count: usize,
}

impl<R: Source + Drop> Reversible for Tape<R> {
    ghost use Rattle.std.specs.Prelude.{◌≡◌, ℕ};
    ghost use Rattle.std.proofs.Common.{◌∙◌, ap, sym};
    ghost use Rattle.rawk_tape.specs.Tapes.{LeadsBack, ReadsAhead, consumed_by};
    ghost use Rattle.rawk_tape.specs.Laws.{ReadsAhead-refl};

    type Change = Consumption;

    type Undo = Consumption;

    // How many bytes are consumed.
    ghost Seen = { ℕ };

    ghost sees = { λ part. part.consumed };

    // Bytes read ahead stand behind those kept.
    ghost grown = { λ old new. ReadsAhead R.may_give R.over R.handed old new };

    ghost makes = { λ old change new. new ≡ record old { consumed = consumed_by old change.count } };

    ghost leads_back = { λ now undo earlier. LeadsBack R.may_give R.over R.handed now undo.count earlier };

    ghost grown_same = { λ part. ReadsAhead-refl R.may_give R.over R.handed part };

    ghost grown_seen = { λ old new h. h.consumed };

    ghost makes_one = { λ old new other change h k. ap (λ part. part.consumed) (h ∙ sym k) };

    /// Consumes bytes up to a count. It takes no memory, always succeeds and asks the source for nothing; the entry is the count before.
    fn apply(&mut self, alloc: Global, change: Consumption) -> Result<Consumption, AllocError>
        ensures makes { IfOk result (λ undo. self.new ≡ record self.old { consumed = consumed_by self.old change.count }) }
        ensures back { IfOk result (λ undo. (more : TapeState R) → ReadsAhead R.may_give R.over R.handed self.new more → LeadsBack R.may_give R.over R.handed more undo.count self.old) }
        ensures err { OnErr result (ReadsAhead R.may_give R.over R.handed self.old self.new) }
        ensures source { self.new.source ≡ self.old.source }
        ensures done { result ≡ Ok (record { count = self.old.consumed }) }
    {
        let count = self.consumed();
        if change.count <= self.size() {
            self.consume(change.count);
        }
        Ok(Consumption { count })
    }

    /// Takes a consumption back, and leaves the newer count in the entry. It asks the source for nothing: what was read ahead stays.
    fn undo(&mut self, undo: &mut Consumption)
        requires { undo.old.count ≤ length self.old.bytes }
        ensures back { (earlier : TapeState R) → LeadsBack R.may_give R.over R.handed self.old undo.old.count earlier → ReadsAhead R.may_give R.over R.handed earlier self.new }
        ensures source { self.new.source ≡ self.old.source }
        ensures count { self.new.consumed ≡ undo.old.count }
        ensures newer { self.old ≡ record self.new { consumed = undo.new.count } }
    {
        undo.count = self.consume(undo.count);
    }
}
