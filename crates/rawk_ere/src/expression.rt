//! Extended regular expressions, read from patterns, and the calls on them.

ghost use Rattle.std.specs.Prelude.{◌≡◌, ◌+◌, ◌-◌, ◌*◌, ◌<◌, ◌≤◌, ◌↔◌, IsTrue, length, ℕ, Some, IfOk, IfErr};
ghost use Rattle.rawk_ere_tree.specs.Tree.{size_of, IsWithinLimits};
ghost use Rattle.rawk_ere_tree.specs.Node.{tree_of};
ghost use Rattle.rawk_ere_pattern.specs.PatternOf.{IsPatternOf, IsRefused};
ghost use Rattle.rawk_ere_tree.specs.Code.{code_of};
ghost use Rattle.rawk_ere_tree.specs.Ends.{IsLongest, IsMatch, HasMatch};
ghost use Rattle.rawk_ere_tree.specs.Open.{IsOpenMatch, IsSettled, IsOpenFrom};
ghost use Rattle.rawk_ere_automaton.specs.Search.{IsBetween, AreBetween, Knows};

use crate::tables::{small_table, small_wide};
use rawk_ere_automaton::search::{
    first_by, first_open, is_found_by, is_found_by_walk, longest, open_start,
};
use rawk_ere_automaton::table::{Table, run};
use rawk_ere_begins::block::Block;
use rawk_ere_last::find::{first_apart, is_found_apart};
use rawk_ere_last::shape::last_width;
use rawk_ere_pattern::EreError;
use rawk_ere_pattern::read::read;
use rawk_ere_tree::code::Code;
use rawk_ere_tree::emit::emit;
use rawk_ere_tree::node::Node;
use rawk_ere_tree::proof_tree::ProofTree;
use std::alloc::{AllocError, Global};
use std::marker::Model;

/// An extended regular expression with its automaton. A contract sees its tree, which takes no memory.
#[derive(Drop)]
pub struct Ere {
    tree: ProofTree,
    code: Code,
    table: Option<Table>,
    wide: Option<Table>,
    on_empty: bool,
    last: Option<usize>,
    by_table: bool,
}

/// The tree of the expression.
impl Model for Ere {
    ghost use Rattle.rawk_ere_tree.specs.Tree.{Tree};
    ghost use Rattle.rawk_ere_tree.specs.TreeCode.{tree_code};

    ghost Value = { Tree };

    ghost coded = { tree_code };

    ghost use Rattle.std.specs.Prelude.{◌≡◌, ◌↔◌, IsTrue, None, false, []};
    ghost use Rattle.rawk_ere_tree.specs.Code.{code_of, wide_code};

    ghost view = { λ e. e.tree.tree };

    ghost use Rattle.rawk_ere_automaton.specs.Table.{IsTable};
    ghost use Rattle.rawk_ere_walks.specs.Ways.{BeginsIn};
    ghost use Rattle.rawk_ere_last.specs.Shapes.{last_in};
    ghost use Rattle.std.specs.Option.{ForSome};

    ghost invariant = { λ e. (e.code ≡ code_of e.tree.tree)
        × ForSome e.table (IsTable e.code)
        × ForSome e.wide (IsTable (wide_code e.code))
        × (IsTrue e.on_empty ↔ BeginsIn e.code [] 0 0)
        × (e.last ≡ last_in e.tree.tree)
        × (e.table ≡ None → e.by_table ≡ false) };
}

impl Ere {
    /// The expression that a pattern is, after POSIX XBD 9.4. `Syntax`: it is none; `TooLarge`: it is one whose size is
    /// above 65,536 or in which more than 200 groups and repetitions stand one inside another; `Memory`.
    pub fn parse(alloc: Global, pattern: &[u8]) -> Result<Ere, EreError>
        ensures is { IfOk result (λ e. IsPatternOf pattern.now e) }
        ensures within { IfOk result IsWithinLimits }
        ensures refused { IfErr result (λ x. IsRefused x pattern.now) }
    {
        let node = read(alloc, pattern)?;
        let expression = Ere::of_node(alloc, node)?;
        Ok(expression)
    }

    /// The expression of the tree.
    fn of_node(alloc: Global, node: Node) -> Result<Ere, AllocError>
        ensures { IfOk result (λ e. e ≡ tree_of node) }
    {
        let mut code = Code::new(alloc);
        emit(alloc, &mut code, &node)?;
        code.shrink();
        let table = small_table(alloc, &code)?;
        let wide = small_wide(alloc, &code, &table)?;
        let on_empty = is_found_by_walk(alloc, &code, b"")?;
        let last = last_width(&node);
        let by_table = table.is_some() && last.is_none();
        Ok(Ere {
            tree: ProofTree::of(&node),
            code,
            table,
            wide,
            on_empty,
            last,
            by_table,
        })
    }

    /// How many states the automaton has.
    pub fn states(&self) -> usize
        ensures value { result ≡ length (code_of self.now) + 1 }
        ensures within { result ≤ 2 * size_of self.now + 1 }
    {
        self.code.len() + 1
    }

    /// The greatest end of a match that begins at `from`, if there is one. It reads no byte twice.
    pub fn longest_at(
        &self,
        alloc: Global,
        text: &[u8],
        from: usize,
    ) -> Result<Option<usize>, AllocError>
        requires { from ≤ length text.now }
        ensures is { IfOk result (IsLongest text.now self.now from) }
        ensures within { IfOk result (IsBetween from (length text.now)) }
    {
        if let Some(table) = &self.table {
            if text.len() > 0 {
                let ran = run(table, &self.code, text, from);
                return Ok(ran.longest);
            }
        }
        let walked = longest(alloc, &self.code, text, from, true)?;
        Ok(walked.longest)
    }

    /// The same, with how often a state was entered at a place: at most once for each state at each place.
    pub fn longest_at_counted(
        &self,
        alloc: Global,
        text: &[u8],
        from: usize,
    ) -> Result<(Option<usize>, u128), AllocError>
        requires { from ≤ length text.now }
        ensures is { IfOk result (λ r. IsLongest text.now self.now from r.0) }
        ensures within { IfOk result (λ r. IsBetween from (length text.now) r.0) }
        ensures entered { IfOk result (λ r. r.1 ≤ (length text.now - from + 1) * (length (code_of self.now) + 1)) }
    {
        let walked = longest(alloc, &self.code, text, from, true)?;
        Ok((walked.longest, walked.entered))
    }

    /// The leftmost match from `from` on, and the longest there: its begin and its end.
    pub fn find(
        &self,
        alloc: Global,
        text: &[u8],
        from: usize,
    ) -> Result<Option<(usize, usize)>, AllocError>
        requires { from ≤ length text.now }
        ensures is { IfOk result (IsMatch text.now self.now from) }
        ensures within { IfOk result (AreBetween from (length text.now)) }
    {
        let mut known = Block::none();
        self.find_on(alloc, text, from, &mut known)
    }

    /// The same, with what earlier searches in the text have left of its places, where this one leaves what it finds out.
    #[inline(always)]
    pub(crate) fn find_on(
        &self,
        alloc: Global,
        text: &[u8],
        from: usize,
        known: &mut Block,
    ) -> Result<Option<(usize, usize)>, AllocError>
        requires from { from ≤ length text.now }
        requires known { Knows (code_of self.now) text.now known.old }
        ensures is { IfOk result (IsMatch text.now self.now from) }
        ensures within { IfOk result (AreBetween from (length text.now)) }
        ensures known { Knows (code_of self.now) text.now known.new }
    {
        if text.len() == 0 {
            return Ok(self.on_empty.then_some((0, 0)));
        }
        if !self.by_table {
            return first_apart(alloc, &self.table, self.last, &self.code, text, from);
        }
        match &self.table {
            None => unreachable!(),
            Some(table) => first_by(alloc, table, &self.wide, &self.code, text, from, known),
        }
    }

    /// Whether the text has a match. It reads no further than it must to tell.
    pub fn is_found(&self, alloc: Global, text: &[u8]) -> Result<bool, AllocError>
        ensures { IfOk result (λ b. IsTrue b ↔ HasMatch text.now self.now) }
    {
        if text.len() == 0 {
            return Ok(self.on_empty);
        }
        if !self.by_table {
            return is_found_apart(alloc, &self.table, self.last, &self.code, text);
        }
        match &self.table {
            None => unreachable!(),
            Some(table) => is_found_by(alloc, table, &self.wide, &self.code, text),
        }
    }

    /// The leftmost nonempty match from `from` on, and the longest there, if it stays that in every longer text that begins
    /// with this one. None: there is none, or reading from a place up to it wants to know what follows the text.
    pub fn find_open(
        &self,
        alloc: Global,
        text: &[u8],
        from: usize,
    ) -> Result<Option<(usize, usize)>, AllocError>
        requires { from ≤ length text.now }
        ensures is { IfOk result (IsOpenMatch text.now self.now from) }
        ensures settled { IfOk result (λ o. (m : ℕ × ℕ) → o ≡ Some m → IsSettled text.now self.now from m) }
        ensures within { IfOk result (AreBetween from (length text.now)) }
    {
        first_open(alloc, &self.table, &self.code, text, from)
    }

    /// The first place from `from` on where a nonempty match may begin, in this text or in a longer one that begins with it;
    /// the end of the text if there is none. A search in a longer text may go on from there.
    pub fn open_from(&self, alloc: Global, text: &[u8], from: usize) -> Result<usize, AllocError>
        requires { from ≤ length text.now }
        ensures { IfOk result (IsOpenFrom text.now self.now from) }
    {
        open_start(alloc, &self.table, &self.code, text, from)
    }
}
