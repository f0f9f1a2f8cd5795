//! The longest match from a place, by a walk of a set of states from byte to byte.

ghost use Rattle.std.specs.Prelude.{◌≡◌, ◌+◌, ◌-◌, ◌*◌, ◌<◌, ◌≤◌, ◌↔◌, ◌⊎◌, [], length, min, IfOk, IsTrue, Contains, Some, true, false};
ghost use Rattle.rawk_ere_tree.specs.Ends.{IsLast};
ghost use Rattle.rawk_ere_tree.specs.Code.{Hops};
ghost use Rattle.rawk_ere_tree.specs.StateSets.{Adds};
ghost use Rattle.rawk_ere_walks.specs.Sets.{HopsFrom, TakesFrom, AdvancesBy, AreReached, Closes, IsFarthest, Asks, AsksAt, AsksIn, WantsFrom, HasReached};
ghost use Rattle.rawk_ere_walks.specs.Ways.{EndsFrom, MayBy};

use rawk_ere_tree::code::{Code, Instruction};
use rawk_ere_tree::set::StateSet;
use std::alloc::{AllocError, Global};
use std::mem;

/// No state of the code.
pub fn no_states(alloc: Global, code: &Code) -> Result<StateSet, AllocError>
    ensures { IfOk result (λ set. set ≡ (length code.now + 1, [])) }
{
    StateSet::new(alloc, code.len() + 1)
}

/// Whether the end of the code is one of the states.
pub fn has_end(code: &Code, set: &StateSet) -> bool
    ensures { IsTrue result ↔ Contains set.now.1 (length code.now) }
{
    set.contains(code.len())
}

/// Adds the states that the instruction at `state` leads to without reading.
fn hop(set: &mut StateSet, instr: &Instruction, state: usize, first: bool, last: bool)
    ensures room { set.new.0 ≡ set.old.0 }
    ensures adds { Adds set.old.0 set.old.1 set.new.1 (Hops (IsTrue first) (IsTrue last) state instr.now) }
{
    match instr {
        Instruction::Bytes(_) => {}
        Instruction::Start => {
            if first {
                set.add_after(state, 1);
            }
        }
        Instruction::End => {
            if last {
                set.add_after(state, 1);
            }
        }
        Instruction::Split(by) => {
            set.add_after(state, 1);
            set.add_after(state, *by);
        }
        Instruction::Go(by) => set.add_after(state, *by),
        Instruction::Back(by) => set.add(state.saturating_sub(*by)),
        Instruction::Fork(by) => {
            set.add_after(state, 1);
            set.add(state.saturating_sub(*by));
        }
    }
}

/// Adds the states that `state` leads to without reading.
fn hop_from(code: &Code, set: &mut StateSet, state: usize, first: bool, last: bool)
    ensures room { set.new.0 ≡ set.old.0 }
    ensures adds { Adds set.old.0 set.old.1 set.new.1 (HopsFrom code.now (IsTrue first) (IsTrue last) state) }
{
    if state < code.len() {
        hop(set, &code.at(state), state, first, last);
    }
}

/// Whether the state reads the byte.
pub fn reads_from(code: &Code, state: usize, byte: u8) -> bool
    ensures { IsTrue result ↔ TakesFrom code.now state byte }
{
    if state < code.len() {
        code.reads(state, byte)
    } else {
        false
    }
}

/// Whether `$` holds at a place.
fn is_last(text: &[u8], at: usize, closed: bool) -> bool
    ensures { IsTrue result ↔ IsLast closed text.now at }
{
    closed && at == text.len()
}

/// Adds the states that the members lead to without reading, and so on.
pub fn close(code: &Code, set: &mut StateSet, first: bool, last: bool)
    ensures room { set.new.0 ≡ set.old.0 }
    ensures closes { Closes set.old.0 code.now (IsTrue first) (IsTrue last) set.old.1 set.new.1 }
{
    let mut done = 0;
    while done < set.len() {
        let state = set.at(done);
        hop_from(code, set, state, first, last);
        done += 1;
    }
}

/// Adds the state after this one, if it reads the byte.
fn read_from(code: &Code, to: &mut StateSet, state: usize, byte: u8)
    ensures room { to.new.0 ≡ to.old.0 }
    ensures adds { Adds to.old.0 to.old.1 to.new.1 (λ r. TakesFrom code.now state byte × (r ≡ state + 1)) }
{
    if reads_from(code, state, byte) {
        to.add_after(state, 1);
    }
}

/// The states after those that read the byte.
pub fn read(code: &Code, from: &StateSet, to: &mut StateSet, byte: u8)
    ensures room { to.new.0 ≡ to.old.0 }
    ensures reads { AdvancesBy to.old.0 code.now byte from.now.1 to.new.1 }
{
    to.clear();
    for index in 0..from.len() {
        read_from(code, to, from.at(index), byte);
    }
}

/// The states that are reached at the start of a match.
fn start(code: &Code, set: &mut StateSet, text: &[u8], from: usize, closed: bool)
    requires { set.old.0 ≡ length code.now + 1 }
    ensures room { set.new.0 ≡ set.old.0 }
    ensures reached { AreReached code.now closed text.now from from set.new.1 }
{
    set.clear();
    set.add(0);
    close(code, set, from == 0, is_last(text, from, closed));
}

/// The states that are reached one place later.
fn advance(
    code: &Code,
    now: &StateSet,
    next: &mut StateSet,
    text: &[u8],
    from: usize,
    at: usize,
    closed: bool,
)
    requires room { next.old.0 ≡ length code.now + 1 }
    requires within { at < length text.now }
    requires begun { from ≤ at }
    requires reached { AreReached code.now closed text.now from at now.now.1 }
    ensures room { next.new.0 ≡ next.old.0 }
    ensures reached { AreReached code.now closed text.now from (at + 1) next.new.1 }
{
    read(code, now, next, text[at]);
    close(code, next, false, is_last(text, at + 1, closed));
}

/// The longest match so far, once the place is looked at.
fn noted(code: &Code, longest: Option<usize>, states: &StateSet, at: usize) -> Option<usize>
    ensures { (Contains states.now.1 (length code.now) × (result ≡ Some at))
        ⊎ ((Contains states.now.1 (length code.now) → ⊥) × (result ≡ longest)) }
{
    if has_end(code, states) {
        Some(at)
    } else {
        longest
    }
}

/// Whether the instruction wants to know what follows the text.
fn asks(instruction: &Instruction) -> bool
    ensures { IsTrue result ↔ Asks instruction.now }
{
    match instruction {
        Instruction::Bytes(_) => true,
        Instruction::Start => false,
        Instruction::End => true,
        Instruction::Split(_) => false,
        Instruction::Go(_) => false,
        Instruction::Back(_) => false,
        Instruction::Fork(_) => false,
    }
}

/// Whether the state does.
fn asks_at(code: &Code, state: usize) -> bool
    ensures { IsTrue result ↔ AsksAt code.now state }
{
    if state < code.len() {
        asks(&code.at(state))
    } else {
        false
    }
}

/// Whether one of the states wants to know what follows the text.
pub fn asks_in(code: &Code, set: &StateSet) -> bool
    ensures { IsTrue result ↔ AsksIn code.now set.now.1 }
{
    for index in 0..set.len() {
        if asks_at(code, set.at(index)) {
            return true;
        }
    }
    false
}

/// What a walk from a place found.
#[derive(Clone, Copy)]
pub struct Walked {
    /// The end of the longest way through the code.
    pub longest: Option<usize>,
    /// How often a state was entered at a place.
    pub entered: u128,
    /// Whether a way reaches the end of the text where it wants to know what follows.
    pub asks: bool,
}

/// Walks from a place. The sets only lend their memory. If the text is closed, `$` holds at its end.
pub fn walk(
    now: &mut StateSet,
    next: &mut StateSet,
    code: &Code,
    text: &[u8],
    from: usize,
    closed: bool,
) -> Walked
    requires now { now.old.0 ≡ length code.now + 1 }
    requires next { next.old.0 ≡ length code.now + 1 }
    requires from { from ≤ length text.now }
    ensures now { now.new.0 ≡ length code.now + 1 }
    ensures next { next.new.0 ≡ length code.now + 1 }
    ensures farthest { IsFarthest code.now closed text.now from result.longest }
    ensures entered { result.entered ≤ (length text.now - from + 1) * (length code.now + 1) }
    ensures asks { IsTrue result.asks ↔ WantsFrom code.now closed text.now from }
{
    start(code, now, text, from, closed);
    let mut longest = None;
    let mut entered = 0;
    for at in from..text.len() {
        if now.len() == 0 {
            return Walked {
                longest,
                entered,
                asks: false,
            };
        }
        entered = now.counted(entered, at - from);
        longest = noted(code, longest, now, at);
        advance(code, now, next, text, from, at, closed);
        mem::swap(now, next);
    }
    entered = now.counted(entered, text.len() - from);
    longest = noted(code, longest, now, text.len());
    Walked {
        longest,
        entered,
        asks: asks_in(code, now),
    }
}

/// Adds the first state, if ways may still begin.
fn add_first(set: &mut StateSet, begins: bool)
    ensures room { set.new.0 ≡ set.old.0 }
    ensures adds { Adds set.old.0 set.old.1 set.new.1 (λ r. IsTrue begins × (r ≡ 0)) }
{
    if begins {
        set.add(0);
    }
}

/// The states that are reached one place later, and those of a way that begins there, if that is not past `upto`.
fn advance_all(
    code: &Code,
    now: &StateSet,
    next: &mut StateSet,
    text: &[u8],
    from: usize,
    upto: usize,
    at: usize,
)
    requires room { next.old.0 ≡ length code.now + 1 }
    requires within { at < length text.now }
    requires begun { from ≤ at }
    requires reached { HasReached code.now true text.now from upto at now.now.1 }
    ensures room { next.new.0 ≡ next.old.0 }
    ensures reached { HasReached code.now true text.now from upto (at + 1) next.new.1 }
{
    read(code, now, next, text[at]);
    add_first(next, at < upto);
    close(code, next, false, is_last(text, at + 1, true));
}

/// Where the ways that begin from `from` to `upto` end first, found in one pass over the text.
pub fn first_end(
    now: &mut StateSet,
    next: &mut StateSet,
    code: &Code,
    text: &[u8],
    from: usize,
    upto: usize,
) -> Option<usize>
    requires now { now.old.0 ≡ length code.now + 1 }
    requires next { next.old.0 ≡ length code.now + 1 }
    requires from { from ≤ upto }
    requires upto { upto ≤ length text.now }
    ensures now { now.new.0 ≡ length code.now + 1 }
    ensures next { next.new.0 ≡ length code.now + 1 }
    ensures ends { EndsFrom code.now text.now from upto result }
{
    start(code, now, text, from, true);
    for at in from..text.len() {
        if has_end(code, now) {
            return Some(at);
        }
        if upto <= at && now.len() == 0 {
            return None;
        }
        advance_all(code, now, next, text, from, upto, at);
        mem::swap(now, next);
    }
    if has_end(code, now) {
        Some(text.len())
    } else {
        None
    }
}

/// The states that ways which began before reach one place later, in a text that may go on.
fn advance_begun(
    code: &Code,
    now: &StateSet,
    next: &mut StateSet,
    text: &[u8],
    from: usize,
    upto: usize,
    at: usize,
)
    requires room { next.old.0 ≡ length code.now + 1 }
    requires within { at < length text.now }
    requires begun { from ≤ at }
    requires reached { HasReached code.now false text.now from upto at now.now.1 }
    ensures room { next.new.0 ≡ next.old.0 }
    ensures reached { HasReached code.now false text.now from (min upto at) (at + 1) next.new.1 }
{
    read(code, now, next, text[at]);
    close(code, next, false, false);
}

/// The same states, and those of a way that begins there, if that is not past `upto`.
fn begin_next(code: &Code, set: &mut StateSet, text: &[u8], from: usize, upto: usize, at: usize)
    requires room { set.old.0 ≡ length code.now + 1 }
    requires within { at < length text.now }
    requires begun { from ≤ at }
    requires reached { HasReached code.now false text.now from (min upto at) (at + 1) set.old.1 }
    ensures room { set.new.0 ≡ set.old.0 }
    ensures reached { HasReached code.now false text.now from upto (at + 1) set.new.1 }
{
    add_first(set, at < upto);
    close(code, set, false, false);
}

/// A place by which a way may begin that reads a byte, in the text or in a longer one, of those from `from` to `upto`; found in
/// one pass over the text.
pub fn may_begin_by(
    now: &mut StateSet,
    next: &mut StateSet,
    code: &Code,
    text: &[u8],
    from: usize,
    upto: usize,
) -> Option<usize>
    requires now { now.old.0 ≡ length code.now + 1 }
    requires next { next.old.0 ≡ length code.now + 1 }
    requires from { from ≤ upto }
    requires upto { upto < length text.now }
    ensures now { now.new.0 ≡ length code.now + 1 }
    ensures next { next.new.0 ≡ length code.now + 1 }
    ensures by { MayBy code.now text.now from upto result }
{
    start(code, now, text, from, false);
    for at in from..text.len() {
        if upto < at && now.len() == 0 {
            return None;
        }
        advance_begun(code, now, next, text, from, upto, at);
        if has_end(code, next) {
            return Some(upto.min(at));
        }
        begin_next(code, next, text, from, upto, at);
        mem::swap(now, next);
    }
    if asks_in(code, now) { Some(upto) } else { None }
}
