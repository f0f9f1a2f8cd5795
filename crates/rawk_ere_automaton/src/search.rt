//! Searches for a way through a code, from a place on.

ghost use Rattle.std.specs.Prelude.{◌≡◌, ℕ, ◌+◌, ◌-◌, ◌*◌, ◌<◌, ◌≤◌, ◌↔◌, ◌⊎◌, true, false, length, Some, IfOk, IsTrue};
ghost use Rattle.rawk_ere_walks.specs.Sets.{IsFarthest};
ghost use Rattle.rawk_ere_tree.specs.Code.{wide_code};
ghost use Rattle.rawk_ere_automaton.specs.Table.{IsTable};
ghost use Rattle.std.specs.Option.{ForSome};
ghost use Rattle.rawk_ere_walks.specs.Ways.{BeginsIn, EndsFrom, MayStart, MayIn};
ghost use Rattle.rawk_ere_automaton.specs.Search.{BeginsNone, IsFirstBegin, IsProgress, Widens, IsBetween, AreBetween, IsFound, IsFirstOpen, IsOpenStart, NoneMay, IsOpening, IsOpened, Knows};

use crate::progress::{Opening, Progress};
use crate::table::{Table, first_end_by, first_stop, run, run_here, run_open, skip_on, skip_open};
use rawk_ere_begins::block::Block;
use rawk_ere_tree::code::Code;
use rawk_ere_tree::set::StateSet;
use rawk_ere_walks::walk::{Walked, first_end, may_begin_by, no_states, walk};
use std::alloc::{AllocError, Global};

/// How many bytes a search reads in vain before one pass over the text tells whether there is a way at all.
const FEW: usize = 16;

/// For this many bytes that are passed over, one more may be read in vain.
const PASSED: usize = 4;

/// Walks from a place to the end of the text.
pub fn longest(
    alloc: Global,
    code: &Code,
    text: &[u8],
    from: usize,
    closed: bool,
) -> Result<Walked, AllocError>
    requires { from ≤ length text.now }
    ensures farthest { IfOk result (λ w. IsFarthest code.now closed text.now from w.longest) }
    ensures within { IfOk result (λ w. IsBetween from (length text.now) w.longest) }
    ensures entered { IfOk result (λ w. w.entered ≤ (length text.now - from + 1) * (length code.now + 1)) }
{
    let mut now = no_states(alloc, code)?;
    let mut next = no_states(alloc, code)?;
    Ok(walk(&mut now, &mut next, code, text, from, closed))
}

/// The first place from `from` to `upto` where a way begins, of which there is one: it halves what is left.
fn first_begin(
    now: &mut StateSet,
    next: &mut StateSet,
    code: &Code,
    text: &[u8],
    from: usize,
    upto: usize,
) -> usize
    requires now { now.old.0 ≡ length code.now + 1 }
    requires next { next.old.0 ≡ length code.now + 1 }
    requires from { from ≤ upto }
    requires upto { upto ≤ length text.now }
    requires some { BeginsIn code.now text.now from upto }
    ensures now { now.new.0 ≡ length code.now + 1 }
    ensures next { next.new.0 ≡ length code.now + 1 }
    ensures first { IsFirstBegin code.now text.now from result }
    ensures within { result ≤ length text.now }
{
    let mut low = from;
    let mut high = upto;
    while low < high {
        let middle = low + (high - low) / 2;
        let found = first_end(now, next, code, text, low, middle);
        match found {
            Some(_) => high = middle,
            None => low = middle + 1,
        }
    }
    low
}

/// The begin and the end of the first way, and the longest there. It reads the text once for each halving of its length.
pub fn first(
    alloc: Global,
    code: &Code,
    text: &[u8],
    from: usize,
) -> Result<Option<(usize, usize)>, AllocError>
    requires { from ≤ length text.now }
    ensures { IfOk result (IsFound code.now text.now from) }
{
    let mut now = no_states(alloc, code)?;
    let mut next = no_states(alloc, code)?;
    let found = first_end(&mut now, &mut next, code, text, from, text.len());
    match found {
        None => Ok(None),
        Some(end) => {
            let begin = first_begin(&mut now, &mut next, code, text, from, end);
            let walked = walk(&mut now, &mut next, code, text, begin, true);
            Ok(span(begin, walked.longest))
        }
    }
}

/// Whether what may begin at a place is what may begin at all later ones: the start of the text may differ from these.
#[inline(always)]
fn is_later(table: &Table, from: usize) -> bool
    ensures { IsTrue result → (0 < from) ⊎ (table.now.start ≡ table.now.later) }
{
    from > 0 || table.start == table.later
}

/// The first place from `from` on where a way may begin, by what a block tells, where it does; else the block that is found is left in it.
#[inline(always)]
fn first_place(table: &Table, code: &Code, text: &[u8], from: usize, known: &mut Block) -> usize
    requires within { from ≤ length text.now }
    requires table { IsTable code.now table.now }
    requires known { Knows code.now text.now known.old }
    ensures low { from ≤ result }
    ensures high { result ≤ length text.now }
    ensures none { BeginsNone code.now text.now from result }
    ensures known { Knows code.now text.now known.new }
{
    if !is_later(table, from) {
        return from;
    }
    skip_on(table, code, text, from, known)
}

/// Looks for a way from place to place, until it has read `most` bytes in vain, and a share of those that it passed over.
#[inline(always)]
fn restart(
    table: &Table,
    code: &Code,
    text: &[u8],
    from: usize,
    most: usize,
    known: &mut Block,
) -> Progress
    requires within { from ≤ length text.now }
    requires some { 0 < length text.now }
    requires table { IsTable code.now table.now }
    requires known { Knows code.now text.now known.old }
    ensures progress { IsProgress code.now text.now from result }
    ensures known { Knows code.now text.now known.new }
{
    let mut begin = first_place(table, code, text, from, known);
    let mut left = most;
    while begin < text.len() {
        let ran = run_here(table, code, text, begin);
        match ran.longest {
            Some(end) => return Progress::Found(begin, end),
            None => {}
        }
        let next = skip_on(table, code, text, begin + 1, known);
        let spent = ran.stop - begin;
        if spent >= left {
            return Progress::Paused(next);
        }
        left = (left - spent).saturating_add((next - begin) / PASSED);
        begin = next;
    }
    Progress::Nothing
}

/// The way at the end of the text, where none begins before.
fn at_end(table: &Table, code: &Code, text: &[u8], from: usize) -> Option<(usize, usize)>
    requires within { from ≤ length text.now }
    requires some { 0 < length text.now }
    requires table { IsTable code.now table.now }
    requires none { BeginsNone code.now text.now from (length text.now) }
    ensures { IsFound code.now text.now from result }
{
    let ran = run(table, code, text, text.len());
    match ran.longest {
        None => None,
        Some(end) => Some((text.len(), end)),
    }
}

/// Where the ways that begin at a place or later end first, in one pass over the text.
fn pass(
    alloc: Global,
    wide: &Option<Table>,
    code: &Code,
    text: &[u8],
    from: usize,
) -> Result<Option<usize>, AllocError>
    requires within { from ≤ length text.now }
    requires some { 0 < length text.now }
    requires wide { ForSome wide.now (IsTable (wide_code code.now)) }
    requires widens { Widens code.now text.now }
    ensures { IfOk result (EndsFrom code.now text.now from (length text.now)) }
{
    match wide {
        Some(table) => Ok(first_end_by(table, code, text, from)),
        None => {
            let mut now = no_states(alloc, code)?;
            let mut next = no_states(alloc, code)?;
            Ok(first_end(&mut now, &mut next, code, text, from, text.len()))
        }
    }
}

/// The first way, of which it is known that one begins from a place to another.
fn halve(
    alloc: Global,
    table: &Table,
    code: &Code,
    text: &[u8],
    from: usize,
    upto: usize,
) -> Result<Option<(usize, usize)>, AllocError>
    requires from { from ≤ upto }
    requires upto { upto ≤ length text.now }
    requires empty { 0 < length text.now }
    requires table { IsTable code.now table.now }
    requires some { BeginsIn code.now text.now from upto }
    ensures { IfOk result (IsFound code.now text.now from) }
{
    let mut now = no_states(alloc, code)?;
    let mut next = no_states(alloc, code)?;
    let begin = first_begin(&mut now, &mut next, code, text, from, upto);
    let ran = run(table, code, text, begin);
    Ok(span(begin, ran.longest))
}

/// Goes on with a search that has read much in vain: one pass tells whether there is a way, and then how far it may begin.
#[inline(never)]
fn resume(
    alloc: Global,
    table: &Table,
    wide: &Option<Table>,
    code: &Code,
    text: &[u8],
    from: usize,
    known: &mut Block,
) -> Result<Option<(usize, usize)>, AllocError>
    requires within { from ≤ length text.now }
    requires some { 0 < length text.now }
    requires table { IsTable code.now table.now }
    requires wide { ForSome wide.now (IsTable (wide_code code.now)) }
    requires widens { Widens code.now text.now }
    requires known { Knows code.now text.now known.old }
    ensures found { IfOk result (IsFound code.now text.now from) }
    ensures known { Knows code.now text.now known.new }
{
    let passed = pass(alloc, wide, code, text, from)?;
    match passed {
        None => Ok(None),
        Some(end) => {
            let most = (end - from).saturating_mul(8).saturating_add(1024);
            match restart(table, code, text, from, most, known) {
                Progress::Found(begin, end) => Ok(Some((begin, end))),
                Progress::Nothing => Ok(at_end(table, code, text, from)),
                Progress::Paused(at) => {
                    let found = halve(alloc, table, code, text, at, end)?;
                    Ok(found)
                }
            }
        }
    }
}

/// The same by a table of the code and one of the wide code, with what earlier searches in the text have left of its places, where this one leaves what it finds out.
#[inline(always)]
pub fn first_by(
    alloc: Global,
    table: &Table,
    wide: &Option<Table>,
    code: &Code,
    text: &[u8],
    from: usize,
    known: &mut Block,
) -> Result<Option<(usize, usize)>, AllocError>
    requires from { from ≤ length text.now }
    requires table { IsTable code.now table.now }
    requires wide { ForSome wide.now (IsTable (wide_code code.now)) }
    requires widens { Widens code.now text.now }
    requires known { Knows code.now text.now known.old }
    ensures found { IfOk result (IsFound code.now text.now from) }
    ensures known { Knows code.now text.now known.new }
{
    if text.len() == 0 {
        let found = first(alloc, code, text, from)?;
        return Ok(found);
    }
    match restart(table, code, text, from, FEW, known) {
        Progress::Found(begin, end) => Ok(Some((begin, end))),
        Progress::Nothing => Ok(at_end(table, code, text, from)),
        Progress::Paused(at) => {
            let found = resume(alloc, table, wide, code, text, at, known)?;
            Ok(found)
        }
    }
}

/// Whether there is a way at all. It goes from place to place until it has read so much in vain; then one pass over what is left tells.
pub fn is_found_by(
    alloc: Global,
    table: &Table,
    wide: &Option<Table>,
    code: &Code,
    text: &[u8],
) -> Result<bool, AllocError>
    requires some { 0 < length text.now }
    requires table { IsTable code.now table.now }
    requires wide { ForSome wide.now (IsTable (wide_code code.now)) }
    requires widens { Widens code.now text.now }
    ensures { IfOk result (λ b. IsTrue b ↔ BeginsIn code.now text.now 0 (length text.now)) }
{
    let mut known = Block::none();
    let mut begin = first_place(table, code, text, 0, &mut known);
    let mut left = FEW;
    while begin < text.len() {
        let found = first_stop(table, code, text, begin);
        if found.is_end {
            return Ok(true);
        }
        let next = skip_on(table, code, text, begin + 1, &mut known);
        let spent = found.stop - begin;
        if spent >= left {
            let passed = pass(alloc, wide, code, text, next)?;
            return Ok(passed.is_some());
        }
        left = (left - spent).saturating_add((next - begin) / PASSED);
        begin = next;
    }
    let last = first_stop(table, code, text, begin);
    Ok(last.is_end)
}

/// The same by a walk of state sets.
pub fn is_found_by_walk(alloc: Global, code: &Code, text: &[u8]) -> Result<bool, AllocError>
    ensures { IfOk result (λ b. IsTrue b ↔ BeginsIn code.now text.now 0 (length text.now)) }
{
    let mut now = no_states(alloc, code)?;
    let mut next = no_states(alloc, code)?;
    let found = first_end(&mut now, &mut next, code, text, 0, text.len());
    Ok(found.is_some())
}

/// The first place from `from` to `upto` where a way may begin that reads a byte, of which there is one: it halves what is left.
fn first_may(
    now: &mut StateSet,
    next: &mut StateSet,
    code: &Code,
    text: &[u8],
    from: usize,
    upto: usize,
) -> usize
    requires now { now.old.0 ≡ length code.now + 1 }
    requires next { next.old.0 ≡ length code.now + 1 }
    requires from { from ≤ upto }
    requires upto { upto < length text.now }
    requires some { MayIn code.now text.now from upto }
    ensures now { now.new.0 ≡ length code.now + 1 }
    ensures next { next.new.0 ≡ length code.now + 1 }
    ensures low { from ≤ result }
    ensures high { result < length text.now }
    ensures none { NoneMay code.now text.now from result }
    ensures here { MayStart code.now text.now result }
{
    let mut low = from;
    let mut high = upto;
    while low < high {
        let half = low + (high - low) / 2;
        let found = may_begin_by(now, next, code, text, low, half);
        match found {
            Some(by) => high = by,
            None => low = half + 1,
        }
    }
    low
}

/// Looks for the first place where a way may begin that reads a byte, by walks of state sets.
fn open_by_walks(
    alloc: Global,
    code: &Code,
    text: &[u8],
    from: usize,
) -> Result<Opening, AllocError>
    requires { from ≤ length text.now }
    ensures { IfOk result (IsOpened code.now text.now from) }
{
    if from == text.len() {
        return Ok(Opening::After(from));
    }
    let mut now = no_states(alloc, code)?;
    let mut next = no_states(alloc, code)?;
    let found = may_begin_by(&mut now, &mut next, code, text, from, text.len() - 1);
    match found {
        None => Ok(Opening::After(text.len())),
        Some(by) => {
            let begin = first_may(&mut now, &mut next, code, text, from, by);
            let walked = walk(&mut now, &mut next, code, text, begin, false);
            Ok(Opening::At(begin, walked.longest, walked.asks))
        }
    }
}

/// The same from place to place by the table, until it has read `most` bytes in vain.
fn open_by_table(table: &Table, code: &Code, text: &[u8], from: usize, most: usize) -> Opening
    requires from { from ≤ length text.now }
    requires table { IsTable code.now table.now }
    ensures { IsOpening code.now text.now from result }
{
    let mut begin = from;
    let mut left = most;
    while begin < text.len() {
        let ran = run_open(table, code, text, begin);
        if ran.asks {
            return Opening::At(begin, ran.longest, true);
        }
        if reads(ran.longest, begin) {
            return Opening::At(begin, ran.longest, false);
        }
        let next = skip_open(table, code, text, begin + 1);
        let spent = ran.stop - begin;
        if spent >= left {
            return Opening::After(next);
        }
        left -= spent;
        begin = next;
    }
    Opening::After(begin)
}

/// The first place where a way may begin that reads a byte, in the text or in a longer one.
fn opening(
    alloc: Global,
    table: &Option<Table>,
    code: &Code,
    text: &[u8],
    from: usize,
) -> Result<Opening, AllocError>
    requires from { from ≤ length text.now }
    requires table { ForSome table.now (IsTable code.now) }
    ensures { IfOk result (IsOpened code.now text.now from) }
{
    match table {
        None => open_by_walks(alloc, code, text, from),
        Some(table) => {
            let most = (text.len() - from).saturating_mul(8).saturating_add(1024);
            match open_by_table(table, code, text, from, most) {
                Opening::At(begin, longest, asks) => Ok(Opening::At(begin, longest, asks)),
                Opening::After(at) => {
                    let found = open_by_walks(alloc, code, text, at)?;
                    Ok(found)
                }
            }
        }
    }
}

/// The begin and the end of the first way that reads a byte, and the longest there, if nothing up to there asks what follows the text.
pub fn first_open(
    alloc: Global,
    table: &Option<Table>,
    code: &Code,
    text: &[u8],
    from: usize,
) -> Result<Option<(usize, usize)>, AllocError>
    requires from { from ≤ length text.now }
    requires table { ForSome table.now (IsTable code.now) }
    ensures is { IfOk result (IsFirstOpen code.now text.now from) }
    ensures within { IfOk result (AreBetween from (length text.now)) }
{
    let found = opening(alloc, table, code, text, from)?;
    match found {
        Opening::After(_) => Ok(None),
        Opening::At(begin, longest, asks) => {
            if asks {
                return Ok(None);
            }
            Ok(span(begin, longest))
        }
    }
}

/// The first place where a way that reads a byte may begin, in the text or in a longer one; the end of the text if there is none before it.
pub fn open_start(
    alloc: Global,
    table: &Option<Table>,
    code: &Code,
    text: &[u8],
    from: usize,
) -> Result<usize, AllocError>
    requires from { from ≤ length text.now }
    requires table { ForSome table.now (IsTable code.now) }
    ensures { IfOk result (IsOpenStart code.now text.now from) }
{
    let found = opening(alloc, table, code, text, from)?;
    match found {
        Opening::After(at) => Ok(at),
        Opening::At(begin, _, _) => Ok(begin),
    }
}

/// Whether the way ends after its begin.
fn reads(longest: Option<usize>, begin: usize) -> bool
    ensures { IsTrue result ↔ (j : ℕ) × (longest ≡ Some j) × (begin < j) }
{
    match longest {
        None => false,
        Some(end) => begin < end,
    }
}

/// The begin and the end of a way.
fn span(begin: usize, longest: Option<usize>) -> Option<(usize, usize)>
    ensures { (j : ℕ) → longest ≡ Some j → result ≡ Some (begin, j) }
{
    match longest {
        None => None,
        Some(end) => Some((begin, end)),
    }
}
