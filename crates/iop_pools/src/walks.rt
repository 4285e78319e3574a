//! Walks over the ranges that are out of one pool. They stand in order among those of the others.

ghost use Rattle.std.specs.Prelude.{◌≡◌, ◌+◌, ◌<◌, ◌==◌, ◌≤◌, IfSome, None, find, position, count_by, length, option_copied, reverse, vec_capacity, vec_len};
ghost use Rattle.std.specs.List.{last_or};
ghost use Rattle.iop_pools.specs.Ranges.{gaps, greatest, total};
ghost use Rattle.iop_pools.specs.Standing.{ranges_of, AreInOrder};
ghost use Rattle.iop_pools.specs.Walks.{first_gap, is_behind, is_this, with_out};

use crate::out::Out;
use crate::range::Range;

/// Finds the least place where so many bytes are free, from one place to another.
pub(crate) fn first_free(outs: &[Out], id: u32, from: u32, end: u32, len: u32) -> Option<u32>
    requires { AreInOrder from end (ranges_of id outs.now) }
    ensures { result ≡ first_gap from end len (ranges_of id outs.now) }
{
    let mut place = from;
    for out in outs {
        if out.pool == id {
            if len <= out.range.start - place {
                return Some(place);
            }
            place = out.range.start + out.range.size;
        }
    }
    (len <= end - place).then_some(place)
}

/// Tells the size of the greatest free range, from one place to another.
pub(crate) fn greatest_free(outs: &[Out], id: u32, from: u32, end: u32) -> u32
    requires { AreInOrder from end (ranges_of id outs.now) }
    ensures { result ≡ greatest (gaps from end (ranges_of id outs.now)) }
{
    let mut most = 0;
    let mut place = from;
    for out in outs {
        if out.pool == id {
            most = most.max(out.range.start - place);
            place = out.range.start + out.range.size;
        }
    }
    most.max(end - place)
}

/// Counts the bytes that are free in all, from one place to another.
pub(crate) fn total_free(outs: &[Out], id: u32, from: u32, end: u32) -> u32
    requires { AreInOrder from end (ranges_of id outs.now) }
    ensures { result ≡ total (gaps from end (ranges_of id outs.now)) }
{
    let mut free = 0;
    let mut place = from;
    for out in outs {
        if out.pool == id {
            free += out.range.start - place;
            place = out.range.start + out.range.size;
        }
    }
    free + (end - place)
}

/// Counts the ranges.
pub(crate) fn count(outs: &[Out], id: u32) -> usize
    ensures { result ≡ count_by (λ out. out.pool == id) outs.now }
{
    outs.iter().filter(|out| out.pool == id).count()
}

/// Finds where the first range stands.
pub(crate) fn first(outs: &[Out], id: u32) -> Option<usize>
    ensures place { result ≡ position (λ out. out.pool == id) outs.now }
    ensures below { IfSome result (λ place. place < length outs.now) }
{
    outs.iter().position(|out| out.pool == id)
}

/// Finds the last range. It is looked for from the end on: there stand those of the pool that is
/// put back.
fn find_last(outs: &[Out], id: u32) -> Option<&Out>
    ensures { option_copied result ≡ find (λ out. out.pool == id) (reverse outs.now) }
{
    outs.iter().rev().find(|out| out.pool == id)
}

/// Reads the last range.
pub(crate) fn last(outs: &[Out], id: u32) -> Option<Range>
    ensures { result ≡ last_or None (ranges_of id outs.now) }
{
    let last = find_last(outs, id)?;
    Some(last.range)
}

/// Finds where the range stands that starts at an address.
pub(crate) fn place_of(outs: &[Out], id: u32, start: u32) -> Option<usize>
    ensures { result ≡ position (is_this id start) outs.now }
{
    outs.iter()
        .position(|out| out.pool == id && out.range.start == start)
}

/// Finds where the first range stands that starts at an address or behind it.
fn place_behind(outs: &[Out], id: u32, start: u32) -> Option<usize>
    ensures place { result ≡ position (is_behind id start) outs.now }
    ensures below { IfSome result (λ place. place < length outs.now) }
{
    outs.iter()
        .position(|out| out.pool == id && start <= out.range.start)
}

/// Puts a range in front of those of its pool that start behind it.
pub(crate) fn put(outs: &mut Vec<Out>, id: u32, range: Range)
    requires { vec_len outs.old < vec_capacity outs.old }
    ensures items { outs.new.items ≡ with_out (record { pool = id; range = range }) outs.old.items }
    ensures capacity { vec_capacity outs.old ≤ vec_capacity outs.new }
{
    let behind = place_behind(outs, id, range.start);
    let place = behind.unwrap_or(outs.len());
    let _ = outs.insert(place, Out { pool: id, range });
}
