//! Room for reads, behind bytes that are kept.
ghost use Rattle.std.specs.Prelude.{◌≡◌, ◌≤◌, ◌<◌, ◌+◌, ◌-◌, drop, take, length, None, Some, OnOk, OnErr};
ghost use Rattle.rawk_devices.specs.declared.source.Ending.{Ending as End};
ghost use Rattle.rawk_devices.specs.Inputs.{CountsUp, size_taken, ending_of, failures_of};
ghost use Rattle.rawk_tape.specs.Tapes.{ReadsOn};

use rawk_devices::{DeviceFault, Ending, Source};
use std::alloc::AllocError;

/// How many bytes a read asks for, at most.
pub(crate) const CHUNK: usize = 65_536;

/// How many bytes a read took.
pub(crate) fn size_of_read(read: &Result<usize, DeviceFault>) -> usize
    ensures { result ≡ size_taken read.now }
{
    match read {
        Ok(size) => *size,
        Err(_) => 0,
    }
}

/// What a read reported of the end.
pub(crate) fn ending_of_read(read: &Result<usize, DeviceFault>) -> Option<Ending>
    ensures { result ≡ ending_of read.now }
{
    match read {
        Ok(0) => Some(Ending::Ended),
        Ok(_) => None,
        Err(_) => Some(Ending::Failed),
    }
}

/// Makes room behind the first `end` bytes, where there is none. A source that gives one byte a
/// read so clears one byte for each.
pub(crate) fn make_room(items: &mut Vec<u8>, end: usize) -> Result<(), AllocError>
    requires { end ≤ length items.old.items }
    ensures room { OnOk result (end < length items.new.items) }
    ensures longer { length items.old.items ≤ length items.new.items }
    ensures kept { take end items.new.items ≡ take end items.old.items }
    ensures err { OnErr result (items.new.items ≡ items.old.items) }
    ensures full { OnErr result (end ≡ length items.old.items) }
{
    if end == items.len() {
        items.resize(end + CHUNK, 0)?;
    }
    Ok(())
}

/// Reads once into the room behind the first `end` bytes.
pub(crate) fn read_behind<R: Source>(
    source: &mut R,
    items: &mut [u8],
    end: usize,
) -> Result<usize, DeviceFault>
    requires open { R.over source.old ≡ None }
    requires room { end < length items.old }
    ensures in_bounds { end + size_taken result ≤ length items.new }
    ensures reads { ReadsOn R.may_give R.over R.handed source.old (take end items.old)
        source.new (take (end + size_taken result) items.new) }
    ensures over { R.over source.new ≡ ending_of result }
    ensures failures { CountsUp (R.failures source.old) (R.failures source.new) (failures_of result) }
    ensures none { R.over source.new ≡ Some End.Failed →
        take (end + size_taken result) items.new ≡ take end items.old }
    ensures len { length items.new ≡ length items.old }
{
    let size = (items.len() - end).min(CHUNK);
    source.read(&mut items[end..end + size])
}

/// Copies `size` bytes from `start` on to the front, which they don't reach.
fn copy_to_front(items: &mut [u8], start: usize, size: usize)
    requires apart { size ≤ start }
    requires within { start + size ≤ length items.old }
    ensures kept { take size items.new ≡ take size (drop start items.old) }
    ensures len { length items.new ≡ length items.old }
{
    let (front, back) = items.split_at_mut(start);
    front[..size].copy_from_slice(&back[..size]);
}

/// Moves the bytes from `start` up to `end` to the front: in one piece where they don't reach over their new places.
pub(crate) fn move_to_front(items: &mut Vec<u8>, start: usize, end: usize)
    requires low { start ≤ end }
    requires high { end ≤ length items.old.items }
    ensures kept { take (end - start) items.new.items ≡ drop start (take end items.old.items) }
    ensures len { length items.new.items ≡ length items.old.items }
{
    let size = end - start;
    if size <= start {
        copy_to_front(items, start, size);
        return;
    }
    items.copy_within(start..end, 0);
}
