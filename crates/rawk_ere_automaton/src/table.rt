//! The sets of states that a walk can be in between two bytes, each found once, and where each byte leads.

ghost use Rattle.std.specs.Prelude.{◌≡◌, ℕ, ◌+◌, ◌-◌, ◌*◌, ◌<◌, ◌≤◌, ◌↔◌, ◌⊎◌, true, [], length, slice_index_or, false, IfOk, OnOk, IsTrue, Contains, Some, slice_index};
ghost use Rattle.rawk_ere_begins.specs.Filters.{AllLeadTo};
ghost use Rattle.rawk_ere_walks.specs.Sets.{IsFarthest, AsksIn, WantsFrom};
ghost use Rattle.rawk_ere_automaton.specs.Table.{members, Begins, LeadsBy, EndsLast, AreFilled, AreStarts, IsTable, IsPlaced, Extends, AreAlike, AreMarkedAlike, IsTarget};
ghost use Rattle.rawk_ere_tree.specs.Code.{wide_code};
ghost use Rattle.rawk_ere_walks.specs.Ways.{EndsFrom, Way};
ghost use Rattle.rawk_ere_automaton.specs.Search.{Widens, BeginsNone, NoneMay, Knows};
ghost use Rattle.std.specs.Option.{ForSome};

use rawk_ere_begins::block::Block;
use rawk_ere_begins::filter::{Filter, all_lead_to, find_filter};
use rawk_ere_begins::seek::{LONG, seek, seek_noting};
use rawk_ere_tree::code::Code;
use rawk_ere_tree::set::StateSet;
use rawk_ere_walks::walk::{asks_in, close, has_end, no_states, read, reads_from};
use std::alloc::{AllocError, Global};

/// The rows: the sets of states, of which only what a walk asks is kept.
#[derive(Drop)]
pub struct Table {
    /// The row that each byte leads to, 256 for each row.
    pub next: Vec<u8>,
    /// Whether a way through the code ends at the row.
    pub ends: Vec<bool>,
    /// The same at the end of the text.
    pub last_ends: Vec<bool>,
    /// Whether a state of the row wants to know what follows the text.
    pub wants: Vec<bool>,
    /// Whether each byte leads from the row to itself.
    pub stays: Vec<bool>,
    /// The row at the start of the text.
    pub start: usize,
    /// The row at a later place.
    pub later: usize,
    /// The row without states; no row, if each has some.
    pub dead: usize,
    /// The bytes that lead from the later row to another than the dead one, and those that lead on from there.
    pub begins: Filter,
}

/// What a walk by a table found.
#[derive(Clone, Copy)]
pub struct Ran {
    /// The end of the longest way through the code.
    pub longest: Option<usize>,
    /// Where the walk stopped.
    pub stop: usize,
}

/// Where a walk by a table came to the end of a way, or to where none is possible.
#[derive(Clone, Copy)]
pub struct Stopped {
    /// Whether a way ends there.
    pub is_end: bool,
    /// Where the walk stopped.
    pub stop: usize,
}

/// What a walk by a table found in a text that may go on.
#[derive(Clone, Copy)]
pub struct OpenRan {
    /// The end of the longest way through the code.
    pub longest: Option<usize>,
    /// Where the walk stopped.
    pub stop: usize,
    /// Whether a way reaches the end of the text where it wants to know what follows.
    pub asks: bool,
}

/// The longest way so far, once the row at the place is looked at.
fn marked(ends: bool, at: usize, longest: Option<usize>) -> Option<usize>
    ensures { (IsTrue ends × (result ≡ Some at))
        ⊎ ((IsTrue ends → ⊥) × (result ≡ longest)) }
{
    if ends { Some(at) } else { longest }
}

/// Walks from a place by a table of the code. What a row is marked with is looked at where a byte leads to another row; behind one that each
/// byte leads to itself no byte is looked at.
pub fn run(table: &Table, code: &Code, text: &[u8], from: usize) -> Ran
    requires within { from ≤ length text.now }
    requires some { 0 < length text.now }
    requires table { IsTable code.now table.now }
    ensures farthest { IsFarthest code.now true text.now from result.longest }
    ensures low { from ≤ result.stop }
    ensures high { result.stop ≤ length text.now }
{
    let ends = table.ends.as_slice();
    let next = table.next.as_slice();
    let mut row = if from == 0 { table.start } else { table.later };
    let mut longest = None;
    for at in from..text.len() {
        let to = next[row * 256 + text[at] as usize] as usize;
        if to != row {
            longest = marked(ends[row], at, longest);
            if to == table.dead {
                return Ran {
                    longest,
                    stop: at + 1,
                };
            }
            row = to;
            if table.stays[row] {
                return Ran {
                    longest: marked(table.last_ends[row], text.len(), longest),
                    stop: text.len(),
                };
            }
        }
    }
    longest = marked(table.last_ends[row], text.len(), longest);
    Ran {
        longest,
        stop: text.len(),
    }
}

/// The same from a byte of the text on; where each way is one byte long, that byte alone is looked at.
#[inline(always)]
pub fn run_here(table: &Table, code: &Code, text: &[u8], from: usize) -> Ran
    requires within { from < length text.now }
    requires table { IsTable code.now table.now }
    ensures farthest { IsFarthest code.now true text.now from result.longest }
    ensures low { from ≤ result.stop }
    ensures high { result.stop ≤ length text.now }
{
    if from == 0 || !table.begins.is_single {
        return run(table, code, text, from);
    }
    let to = table.next[table.later * 256 + text[from] as usize] as usize;
    let longest = if to == table.dead {
        None
    } else {
        Some(from + 1)
    };
    Ran {
        longest,
        stop: from + 1,
    }
}

/// Walks from a place to the first end of a way.
pub fn first_stop(table: &Table, code: &Code, text: &[u8], from: usize) -> Stopped
    requires within { from ≤ length text.now }
    requires some { 0 < length text.now }
    requires table { IsTable code.now table.now }
    ensures way { IsTrue result.is_end ↔ (j : ℕ) × Way code.now text.now true from j }
    ensures low { from ≤ result.stop }
    ensures high { result.stop ≤ length text.now }
{
    let next = table.next.as_slice();
    let mut row = if from == 0 { table.start } else { table.later };
    if table.ends[row] {
        return Stopped {
            is_end: true,
            stop: from,
        };
    }
    for at in from..text.len() {
        let to = next[row * 256 + text[at] as usize] as usize;
        if to != row {
            if table.ends[to] {
                return Stopped {
                    is_end: true,
                    stop: at + 1,
                };
            }
            if to == table.dead {
                return Stopped {
                    is_end: false,
                    stop: at + 1,
                };
            }
            row = to;
        }
    }
    Stopped {
        is_end: table.last_ends[row],
        stop: text.len(),
    }
}

/// The same as `run` in a text that may go on, so that `$` does not hold at its end.
pub fn run_open(table: &Table, code: &Code, text: &[u8], from: usize) -> OpenRan
    requires within { from ≤ length text.now }
    requires table { IsTable code.now table.now }
    ensures farthest { IsFarthest code.now false text.now from result.longest }
    ensures asks { IsTrue result.asks ↔ WantsFrom code.now false text.now from }
    ensures low { from ≤ result.stop }
    ensures high { result.stop ≤ length text.now }
{
    let mut row = if from == 0 { table.start } else { table.later };
    let mut longest = None;
    for at in from..text.len() {
        if row == table.dead {
            return OpenRan {
                longest,
                stop: at,
                asks: false,
            };
        }
        longest = marked(table.ends[row], at, longest);
        row = table.next[row * 256 + text[at] as usize] as usize;
    }
    longest = marked(table.ends[row], text.len(), longest);
    OpenRan {
        longest,
        stop: text.len(),
        asks: table.wants[row],
    }
}

/// Where the ways that begin at a place or later end first, by a table of the wide code.
pub fn first_end_by(wide: &Table, code: &Code, text: &[u8], from: usize) -> Option<usize>
    requires within { from ≤ length text.now }
    requires some { 0 < length text.now }
    requires table { IsTable (wide_code code.now) wide.now }
    requires widens { Widens code.now text.now }
    ensures { EndsFrom code.now text.now from (length text.now) result }
{
    let next = wide.next.as_slice();
    let mut row = if from == 0 { wide.start } else { wide.later };
    if wide.ends[row] {
        return Some(from);
    }
    for at in from..text.len() {
        let to = next[row * 256 + text[at] as usize] as usize;
        if to != row {
            if wide.ends[to] {
                return Some(at + 1);
            }
            row = to;
        }
    }
    if wide.last_ends[row] {
        Some(text.len())
    } else {
        None
    }
}

/// Up to where places are looked at one by one: the next one, and in a text that is not long all of them, but none where no way
/// reads a byte.
fn near(table: &Table, text: &[u8], from: usize) -> usize
    requires { from ≤ length text.now }
    ensures low { from ≤ result }
    ensures high { result ≤ length text.now }
{
    if table.begins.is_empty {
        return from;
    }
    if text.len() < LONG || from == text.len() {
        return text.len();
    }
    from + 1
}

/// The first place from `from` to `upto` whose byte leads on from the row `later`; `upto`, if there is none before it.
fn pass_dead(table: &Table, text: &[u8], from: usize, upto: usize) -> usize
    requires within { from ≤ upto }
    requires upto { upto ≤ length text.now }
    requires row { table.now.later * 256 + 256 ≤ length table.now.next.items }
    ensures low { from ≤ result }
    ensures high { result ≤ upto }
    ensures dead { (k : ℕ) → from ≤ k → k < result → slice_index table.now.next.items (table.now.later * 256 + slice_index text.now k) ≡ table.now.dead }
{
    for at in from..upto {
        if table.next[table.later * 256 + text[at] as usize] as usize != table.dead {
            return at;
        }
    }
    upto
}

/// The first place from `from` on where a way may begin that reads a byte, or that reads none; the end of the text, if none is left.
fn skip(table: &Table, code: &Code, text: &[u8], from: usize) -> usize
    requires begun { (0 < from) ⊎ (table.now.start ≡ table.now.later) }
    requires within { from ≤ length text.now }
    requires table { IsTable code.now table.now }
    ensures low { from ≤ result }
    ensures high { result ≤ length text.now }
    ensures none { BeginsNone code.now text.now from result }
{
    if table.ends[table.later] {
        return from;
    }
    let upto = near(table, text, from);
    let first = pass_dead(table, text, from, upto);
    if first < upto {
        return first;
    }
    seek(&table.begins, text, upto)
}

/// The same, by what a block tells, where it does; else the block that is found is left in it.
#[inline(always)]
pub fn skip_on(table: &Table, code: &Code, text: &[u8], from: usize, known: &mut Block) -> usize
    requires begun { (0 < from) ⊎ (table.now.start ≡ table.now.later) }
    requires within { from ≤ length text.now }
    requires table { IsTable code.now table.now }
    requires known { Knows code.now text.now known.old }
    ensures low { from ≤ result }
    ensures high { result ≤ length text.now }
    ensures none { BeginsNone code.now text.now from result }
    ensures known { Knows code.now text.now known.new }
{
    if from > 0 {
        if let Some(at) = known.next(from) {
            return at;
        }
    }
    if table.ends[table.later] {
        return from;
    }
    if text.len() < LONG {
        return skip(table, code, text, from);
    }
    skip_noting(table, code, text, from, known)
}

/// The same where the block has no place that is next, and each way reads a byte.
#[inline(never)]
fn skip_noting(table: &Table, code: &Code, text: &[u8], from: usize, known: &mut Block) -> usize
    requires begun { (0 < from) ⊎ (table.now.start ≡ table.now.later) }
    requires reads { slice_index_or table.now.ends.items table.now.later false ≡ false }
    requires within { from ≤ length text.now }
    requires table { IsTable code.now table.now }
    requires known { Knows code.now text.now known.old }
    ensures low { from ≤ result }
    ensures high { result ≤ length text.now }
    ensures none { BeginsNone code.now text.now from result }
    ensures known { Knows code.now text.now known.new }
{
    let at = beyond(code, text, from, known);
    seek_noting(&table.begins, text, at, known)
}

/// From where on the block tells nothing of the places that follow.
#[inline(always)]
fn beyond(code: &Code, text: &[u8], from: usize, known: &Block) -> usize
    requires within { from ≤ length text.now }
    requires known { Knows code.now text.now known.now }
    ensures low { from ≤ result }
    ensures high { result ≤ length text.now }
    ensures none { BeginsNone code.now text.now from result }
{
    if from == 0 {
        return from;
    }
    known.past(from).min(text.len())
}

/// The first place from `from` on where a way may begin that reads a byte; the end of the text, if none is left.
pub fn skip_open(table: &Table, code: &Code, text: &[u8], from: usize) -> usize
    requires begun { (0 < from) ⊎ (table.now.start ≡ table.now.later) }
    requires within { from ≤ length text.now }
    requires table { IsTable code.now table.now }
    ensures low { from ≤ result }
    ensures high { result ≤ length text.now }
    ensures none { NoneMay code.now text.now from result }
{
    let upto = near(table, text, from);
    let first = pass_dead(table, text, from, upto);
    if first < upto {
        return first;
    }
    seek(&table.begins, text, upto)
}

/// The table of the code, if it has fewer than `most` rows.
pub fn build(alloc: Global, code: &Code, most: usize) -> Result<Option<Table>, AllocError>
    ensures { IfOk result (λ table. ForSome table (IsTable code.now)) }
{
    let mut sets = Vec::new(alloc);
    let first = begin(alloc, code, true)?;
    let start = place(&mut sets, first)?;
    let other = begin(alloc, code, false)?;
    let later = place(&mut sets, other)?;
    let alike = find_alike(alloc, code)?;
    let mut rows = Vec::new(alloc);
    for row in 0..most {
        if row == sets.len() {
            let table = finish(alloc, code, &sets, &rows, start, later)?;
            return Ok(table);
        }
        fill(alloc, code, &alike, &mut sets, &mut rows, row)?;
        if sets.len() > most {
            return Ok(None);
        }
    }
    Ok(None)
}

/// What a walk asks of the sets.
fn finish(
    alloc: Global,
    code: &Code,
    sets: &[StateSet],
    rows: &[usize],
    start: usize,
    later: usize,
) -> Result<Option<Table>, AllocError>
    requires all { length rows.now ≡ 256 * length sets.now }
    requires filled { AreFilled code.now sets.now rows.now }
    requires starts { AreStarts code.now sets.now start later }
    ensures { IfOk result (λ table. ForSome table (IsTable code.now)) }
{
    let ends = find_ends(alloc, code, sets)?;
    let last_ends = find_last(alloc, code, sets)?;
    let wants = find_wants(alloc, code, sets)?;
    let dead = find_dead(sets);
    let packed = pack(alloc, rows)?;
    match packed {
        None => Ok(None),
        Some(next) => {
            let stays = find_stays(alloc, &next, sets.len())?;
            let begins = find_filter(&next, &ends, later, dead);
            Ok(Some(Table {
                next,
                ends,
                last_ends,
                wants,
                stays,
                start,
                later,
                dead,
                begins,
            }))
        }
    }
}

/// The rows as bytes, if they are so few.
fn pack(alloc: Global, rows: &[usize]) -> Result<Option<Vec<u8>>, AllocError>
    ensures { IfOk result (λ o. ForSome o (λ bytes. bytes.items ≡ rows.now)) }
{
    let mut bytes = Vec::with_capacity(alloc, rows.len())?;
    for index in 0..rows.len() {
        let row = rows[index];
        if row > 255 {
            return Ok(None);
        }
        bytes.push(row as u8)?;
    }
    Ok(Some(bytes))
}

/// The row without states, or no row.
fn find_dead(sets: &[StateSet]) -> usize
    ensures { result < length sets.now → length (members sets.now result) ≡ 0 }
{
    for index in 0..sets.len() {
        if sets[index].len() == 0 {
            return index;
        }
    }
    sets.len()
}

/// Whether the set of each row has the end of the code.
fn find_ends(alloc: Global, code: &Code, sets: &[StateSet]) -> Result<Vec<bool>, AllocError>
    ensures all { IfOk result (λ ends. length ends.items ≡ length sets.now) }
    ensures each { IfOk result (λ ends. (r : ℕ) → r < length sets.now → IsTrue (slice_index_or ends.items r false) ↔ Contains (members sets.now r) (length code.now)) }
{
    let mut found = Vec::new(alloc);
    for index in 0..sets.len() {
        found.push(has_end(code, &sets[index]))?;
    }
    Ok(found)
}

/// Whether a state of each row wants to know what follows the text.
fn find_wants(alloc: Global, code: &Code, sets: &[StateSet]) -> Result<Vec<bool>, AllocError>
    ensures all { IfOk result (λ wants. length wants.items ≡ length sets.now) }
    ensures each { IfOk result (λ wants. (r : ℕ) → r < length sets.now → IsTrue (slice_index_or wants.items r false) ↔ AsksIn code.now (members sets.now r)) }
{
    let mut found = Vec::new(alloc);
    for index in 0..sets.len() {
        found.push(asks_in(code, &sets[index]))?;
    }
    Ok(found)
}

/// Whether each byte leads from each row to itself.
fn find_stays(alloc: Global, next: &[u8], rows: usize) -> Result<Vec<bool>, AllocError>
    requires { length next.now ≡ 256 * rows }
    ensures all { IfOk result (λ stays. length stays.items ≡ rows) }
    ensures each { IfOk result (λ stays. (r : ℕ) → r < rows → IsTrue (slice_index_or stays.items r false) ↔ AllLeadTo next.now r r) }
{
    let mut found = Vec::new(alloc);
    for row in 0..rows {
        found.push(all_lead_to(next, row, row))?;
    }
    Ok(found)
}

/// Finds the rows that the bytes lead to from a row.
fn fill(
    alloc: Global,
    code: &Code,
    alike: &[bool],
    sets: &mut Vec<StateSet>,
    next: &mut Vec<usize>,
    row: usize,
) -> Result<(), AllocError>
    requires within { row < length sets.old.items }
    requires alike { AreMarkedAlike code.now alike.now }
    requires done { length next.old.items ≡ 256 * row }
    requires filled { AreFilled code.now sets.old.items next.old.items }
    ensures done { OnOk result (length next.new.items ≡ 256 * (row + 1)) }
    ensures filled { OnOk result (AreFilled code.now sets.new.items next.new.items) }
    ensures extends { OnOk result (Extends sets.old.items sets.new.items) }
{
    for byte in 0..256usize {
        let index = target(alloc, code, alike, sets, next, row, byte as u8)?;
        next.push(index)?;
    }
    Ok(())
}

/// The row that the byte leads to; where the byte is like the one before it, that is known.
fn target(
    alloc: Global,
    code: &Code,
    alike: &[bool],
    sets: &mut Vec<StateSet>,
    next: &[usize],
    row: usize,
    byte: u8,
) -> Result<usize, AllocError>
    requires within { row < length sets.old.items }
    requires alike { AreMarkedAlike code.now alike.now }
    requires done { length next.now ≡ 256 * row + byte }
    requires filled { AreFilled code.now sets.old.items next.now }
    ensures { IfOk result (λ index. IsTarget code.now sets.old.items sets.new.items row byte index) }
{
    if is_alike(alike, byte) && next.len() > 0 {
        return Ok(next[next.len() - 1]);
    }
    let to = step(alloc, code, &sets[row], byte)?;
    let index = place(sets, to)?;
    Ok(index)
}

/// Whether the byte is marked.
fn is_alike(alike: &[bool], byte: u8) -> bool
    ensures { result ≡ slice_index_or alike.now byte false }
{
    let index = byte as usize;
    if index < alike.len() {
        alike[index]
    } else {
        false
    }
}

/// Whether each state reads both bytes or none.
fn are_alike(code: &Code, a: u8, b: u8) -> bool
    ensures { result ≡ true → AreAlike code.now a b }
{
    for state in 0..code.len() {
        if reads_from(code, state, a) != reads_from(code, state, b) {
            return false;
        }
    }
    true
}

/// The marks of the bytes that are like the ones before them.
fn find_alike(alloc: Global, code: &Code) -> Result<Vec<bool>, AllocError>
    ensures { IfOk result (λ marks. AreMarkedAlike code.now marks.items) }
{
    let mut marks = Vec::new(alloc);
    marks.push(false)?;
    for byte in 1..256usize {
        let like = are_alike(code, (byte - 1) as u8, byte as u8);
        marks.push(like)?;
    }
    Ok(marks)
}

/// The states at the start of a match.
fn begin(alloc: Global, code: &Code, first: bool) -> Result<StateSet, AllocError>
    ensures { IfOk result (λ set. Begins code.now (IsTrue first) set.1) }
{
    let mut set = no_states(alloc, code)?;
    set.add(0);
    close(code, &mut set, first, false);
    Ok(set)
}

/// The states after a byte.
fn step(alloc: Global, code: &Code, from: &StateSet, byte: u8) -> Result<StateSet, AllocError>
    ensures { IfOk result (λ to. LeadsBy code.now byte from.now.1 to.1) }
{
    let mut to = no_states(alloc, code)?;
    read(code, from, &mut to, byte);
    close(code, &mut to, false, false);
    Ok(to)
}

/// The row of the set, made if there is none.
fn place(sets: &mut Vec<StateSet>, set: StateSet) -> Result<usize, AllocError>
    ensures { IfOk result (λ row. IsPlaced sets.old.items sets.new.items set.1 row) }
{
    let found = row_of(sets, &set);
    if let Some(row) = found {
        return Ok(row);
    }
    let row = sets.len();
    sets.push(set)?;
    Ok(row)
}

/// A row with the same members.
fn row_of(sets: &[StateSet], set: &StateSet) -> Option<usize>
    ensures { ForSome result (λ row. (row < length sets.now) × ((q : ℕ) → Contains set.now.1 q ↔ Contains (members sets.now row) q)) }
{
    for index in 0..sets.len() {
        if set.is_same(&sets[index]) {
            return Some(index);
        }
    }
    None
}

/// Whether the set leads to the end of the code at the end of the text.
fn ends_last(alloc: Global, code: &Code, set: &StateSet) -> Result<bool, AllocError>
    ensures { IfOk result (λ ends. EndsLast code.now set.now.1 ends) }
{
    let mut copy = no_states(alloc, code)?;
    copy.add_all(set);
    close(code, &mut copy, false, true);
    Ok(has_end(code, &copy))
}

/// The same of each set.
fn find_last(alloc: Global, code: &Code, sets: &[StateSet]) -> Result<Vec<bool>, AllocError>
    ensures all { IfOk result (λ ends. length ends.items ≡ length sets.now) }
    ensures each { IfOk result (λ ends. (r : ℕ) → r < length sets.now → EndsLast code.now (members sets.now r) (slice_index_or ends.items r false)) }
{
    let mut found = Vec::new(alloc);
    for index in 0..sets.len() {
        found.push(ends_last(alloc, code, &sets[index])?)?;
    }
    Ok(found)
}
