//! Entries one behind another, whose keys are an array's numbers from one on.

ghost use Rattle.std.specs.Prelude.{◌≡◌, List, IfSome, Some, slice_get};
ghost use Rattle.rawk_value.specs.Values.{text_of};
ghost use Rattle.rawk_value.specs.declared.value.Value.TheVariants.{Number};
ghost use Rattle.rawk_keys.specs.ArrayKey.{ArrayKey, array_key};
ghost use Rattle.rawk_keys.specs.Series.{AreSeries, IsRun};

use crate::chains::short;

/// The entries from `first` on, `count` of them, of the numbers from `from` on; each is below 2^32.
#[derive(Clone, Copy)]
pub struct Series {
    pub first: u32,
    pub count: u32,
    pub from: u32,
}

/// Entries of an array's keys that are the numbers from 1 on: as many as `count`, one behind another from `first` on; both are below 2^32.
#[derive(Clone, Copy)]
pub struct Run {
    pub first: u32,
    pub count: u32,
}

/// The entry of a number's key, where it stands in its array's series.
#[inline(always)]
pub(crate) fn entry_of(series: &[Series], array: usize, key: i64) -> Option<usize>
    ensures { IfSome result (λ i. (keys : List ArrayKey) → AreSeries series.now keys → slice_get keys i ≡ Some (array_key array (text_of (Number key)))) }
{
    if array >= series.len() {
        return None;
    }
    let own = series[array];
    if key < own.from as i64 {
        return None;
    }
    let place = (key - own.from as i64) as usize;
    if place < own.count as usize {
        return Some(own.first as usize + place);
    }
    None
}

/// The entries of the keys from 1 on of an array, where its series begins with them.
#[inline(always)]
pub(crate) fn entries_from_one(series: &[Series], array: usize) -> Run
    ensures { (keys : List ArrayKey) → AreSeries series.now keys → IsRun array result keys }
{
    if array < series.len() {
        let own = series[array];
        if own.from == 1 {
            return Run {
                first: own.first,
                count: own.count,
            };
        }
    }
    Run { first: 0, count: 0 }
}

/// Whether an array has a series.
#[inline(always)]
pub(crate) fn has_series(series: &[Series], array: usize) -> bool {
    array < series.len() && series[array].count > 0
}

/// Begins the series of an array anew at the entry of a key, where this is 1 or the series has one key at most.
#[inline(never)]
pub(crate) fn begin(series: &mut Vec<Series>, array: usize, key: i64, entry: usize)
    ensures { (keys : List ArrayKey) → slice_get keys entry ≡ Some (array_key array (text_of (Number key))) → AreSeries series.old.items keys → AreSeries series.new.items keys }
{
    reach(series, array);
    if key < 0 {
        return;
    }
    if let Ok(first) = short(entry)
        && let Ok(from) = short(key as usize)
        && array < series.len()
        && (key == 1 || series[array].count <= 1)
    {
        series[array] = Series {
            first,
            count: 1,
            from,
        };
    }
}

// Adds series of no entries up to that of an array, where memory for them is there.
fn reach(series: &mut Vec<Series>, array: usize)
    ensures { (keys : List ArrayKey) → AreSeries series.old.items keys → AreSeries series.new.items keys }
{
    let none = Series {
        first: 0,
        count: 0,
        from: 0,
    };
    if array >= series.len() {
        let _reached = series.resize(array.saturating_add(1), none);
    }
}

/// Lengthens the series of an array, where the key and its entry are those behind its last, and answers whether it did.
#[inline(always)]
pub(crate) fn lengthen(series: &mut Vec<Series>, array: usize, key: i64, entry: usize) -> bool
    ensures { (keys : List ArrayKey) → slice_get keys entry ≡ Some (array_key array (text_of (Number key))) → AreSeries series.old.items keys → AreSeries series.new.items keys }
{
    if array >= series.len() {
        return false;
    }
    let Series { first, count, from } = series[array];
    if key < from as i64 {
        return false;
    }
    let place = (key - from as i64) as usize;
    if place == count as usize && first as usize + place == entry && count < u32::MAX {
        series[array] = Series {
            first,
            count: count + 1,
            from,
        };
        return true;
    }
    false
}
