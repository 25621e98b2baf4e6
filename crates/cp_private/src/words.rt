//! The words that a step reads and writes: the process's own words, and the shared words after
//! them.
//!
//! A missing word reads as 0, and writing it does nothing.

ghost use Rattle.std.specs.Prelude.{◌≡◌, ◌+◌, ◌-◌, ◌≤◌, ◌<◌, ◌^◌, ◌++◌, ℕ, length, slice_set};
ghost use Rattle.cp_model_program.specs.Starts as plain;
ghost use Rattle.cp_program.specs.Reaches.{cap_place};

#[inline(always)]
fn word(words: &[i32], at: usize) -> i32
    ensures { result ≡ plain.word words.now at }
{
    match words.get(at) {
        Some(n) => *n,
        None => 0,
    }
}

/// The word at an address.
#[inline(always)]
pub(crate) fn read(own: &[i32], shared: &[i32], at: usize) -> i32
    requires { length own.now + length shared.now < 2 ^ 32 }
    ensures word { result ≡ plain.word (own.now ++ shared.now) at }
    ensures capped { (place : ℕ) → cap_place place ≡ at
        → result ≡ plain.word (own.now ++ shared.now) place }
{
    match own.get(at) {
        Some(n) => *n,
        None => word(shared, at.saturating_sub(own.len())),
    }
}

/// Writes the word at an address.
#[inline(always)]
#[tactic(auto, using(crate::proofs::Blocks::set_own, crate::proofs::Blocks::set_shared, crate::proofs::Blocks::set_neither))]
pub(crate) fn write(own: &mut [i32], shared: &mut [i32], at: usize, n: i32)
    requires { length own.old + length shared.old < 2 ^ 32 }
    ensures word { own.new ++ shared.new ≡ slice_set (own.old ++ shared.old) at n }
    ensures capped { (place : ℕ) → cap_place place ≡ at
        → own.new ++ shared.new ≡ slice_set (own.old ++ shared.old) place n }
    ensures own { length own.new ≡ length own.old }
    ensures shared { length shared.new ≡ length shared.old }
{
    let count = own.len();
    if at < count {
        own[at] = n;
    } else {
        let behind = at - count;
        if behind < shared.len() {
            shared[behind] = n;
        }
    }
}

/// Sets `count` words to the value `n`.
pub(crate) fn fill(own: &mut [i32], shared: &mut [i32], at: usize, count: usize, n: i32)
    requires { length own.old + length shared.old < 2 ^ 32 }
    ensures words { own.new ++ shared.new ≡ plain.fill at count n (own.old ++ shared.old) }
    ensures own { length own.new ≡ length own.old }
    ensures shared { length shared.new ≡ length shared.old }
{
    let all = own.len() + shared.len();
    let there = count.min(all.saturating_sub(at));
    for i in 0..there {
        write(own, shared, at + i, n);
    }
}

// Copies words that may be own or shared ones, or missing, from the first word on, which is right
// if they move down.
fn copy_down(own: &mut [i32], shared: &mut [i32], to: usize, from: usize, count: usize)
    requires words { length own.old + length shared.old < 2 ^ 32 }
    requires there { to + count ≤ length own.old + length shared.old }
    requires down { to ≤ from }
    ensures words { own.new ++ shared.new ≡ plain.paste to
        (plain.block (own.old ++ shared.old) from count) (own.old ++ shared.old) }
    ensures own { length own.new ≡ length own.old }
    ensures shared { length shared.new ≡ length shared.old }
{
    for i in 0..count {
        let n = read(own, shared, from.saturating_add(i));
        write(own, shared, to + i, n);
    }
}

// Copies such words from the last one on, which is right if they move up.
fn copy_up(own: &mut [i32], shared: &mut [i32], to: usize, from: usize, count: usize)
    requires words { length own.old + length shared.old < 2 ^ 32 }
    requires there { to + count ≤ length own.old + length shared.old }
    requires up { from ≤ to }
    ensures words { own.new ++ shared.new ≡ plain.paste to
        (plain.block (own.old ++ shared.old) from count) (own.old ++ shared.old) }
    ensures own { length own.new ≡ length own.old }
    ensures shared { length shared.new ≡ length shared.old }
{
    for i in (0..count).rev() {
        let n = read(own, shared, from + i);
        write(own, shared, to + i, n);
    }
}

// Copies words of one list from the first word on, which is right if they move down.
fn move_down(words: &mut [i32], to: usize, from: usize, count: usize)
    requires there { from + count ≤ length words.old }
    requires down { to ≤ from }
    ensures { words.new ≡ plain.paste to (plain.block words.old from count) words.old }
{
    for i in 0..count {
        words[to + i] = words[from + i];
    }
}

// Copies words of one list from the last word on, which is right if they move up.
fn move_up(words: &mut [i32], to: usize, from: usize, count: usize)
    requires there { to + count ≤ length words.old }
    requires up { from ≤ to }
    ensures { words.new ≡ plain.paste to (plain.block words.old from count) words.old }
{
    for i in (0..count).rev() {
        words[to + i] = words[from + i];
    }
}

// Copies words of one list.
fn move_within(words: &mut [i32], to: usize, from: usize, count: usize)
    requires to { to + count ≤ length words.old }
    requires from { from + count ≤ length words.old }
    ensures { words.new ≡ plain.paste to (plain.block words.old from count) words.old }
{
    if to <= from {
        move_down(words, to, from, count);
    } else {
        move_up(words, to, from, count);
    }
}

/// Copies `count` words from `source` into `words`.
pub(crate) fn bring(words: &mut [i32], to: usize, source: &[i32], from: usize, count: usize)
    requires { from < 2 ^ 33 }
    ensures { words.new ≡ plain.paste to (plain.block source.now from count) words.old }
{
    let there = count.min(words.len().saturating_sub(to));
    for i in 0..there {
        words[to + i] = word(source, from + i);
    }
}

// Copies words, of which there are `count` at `to`.
fn copy_there(own: &mut [i32], shared: &mut [i32], to: usize, from: usize, count: usize)
    requires words { length own.old + length shared.old < 2 ^ 32 }
    requires there { to + count ≤ length own.old + length shared.old }
    ensures words { own.new ++ shared.new ≡ plain.paste to
        (plain.block (own.old ++ shared.old) from count) (own.old ++ shared.old) }
    ensures own { length own.new ≡ length own.old }
    ensures shared { length shared.new ≡ length shared.old }
{
    // Most words are own words in both places, or are own words here and shared ones there.
    let first = own.len();
    let to_end = to + count;
    let from_end = from.saturating_add(count);
    if to_end <= first && from_end <= first {
        move_within(own, to, from, count);
    } else if first <= to && from_end <= first {
        bring(shared, to - first, own, from, count);
    } else if to_end <= first && first <= from && from_end <= first + shared.len() {
        bring(own, to, shared, from - first, count);
    } else if to <= from {
        copy_down(own, shared, to, from, count);
    } else {
        copy_up(own, shared, to, from, count);
    }
}

/// Copies `count` words, as if all were read before the first one is written.
pub(crate) fn copy(own: &mut [i32], shared: &mut [i32], to: usize, from: usize, count: usize)
    requires { length own.old + length shared.old < 2 ^ 32 }
    ensures words { own.new ++ shared.new ≡ plain.paste to
        (plain.block (own.old ++ shared.old) from count) (own.old ++ shared.old) }
    ensures own { length own.new ≡ length own.old }
    ensures shared { length shared.new ≡ length shared.old }
{
    let all = own.len() + shared.len();
    let there = count.min(all.saturating_sub(to));
    if there != 0 {
        copy_there(own, shared, to, from, there);
    }
}

/// Repeats the block of `size` words at address `at` `count` more times after it.
pub(crate) fn repeat(own: &mut [i32], shared: &mut [i32], at: usize, size: usize, count: usize)
    requires words { length own.old + length shared.old < 2 ^ 32 }
    requires at { at < 2 ^ 34 }
    requires size { size < 2 ^ 32 }
    ensures words { own.new ++ shared.new
        ≡ plain.repeat_block at size count (own.old ++ shared.old) }
    ensures own { length own.new ≡ length own.old }
    ensures shared { length shared.new ≡ length shared.old }
{
    if size == 0 {
        return;
    }
    let all = own.len() + shared.len();
    let mut from = at;
    for _i in 0..count {
        if all <= from + size {
            return;
        }
        copy(own, shared, from + size, from, size);
        from += size;
    }
}
