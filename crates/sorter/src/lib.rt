// Sorting the entries of an index in place: they are made a heap, whose first goes to the end again and again.
#![tactic(auto)]

ghost use Rattle.std.specs.Prelude.{◌≡◌, ◌/◌, ◌≤◌, ◌<◌, length};
ghost use Rattle.entry.specs.Entries.{entry_in};
ghost use Rattle.sorter.specs.Heap.{Gives, Sifts, Heaps, Sorts};

use entry::Entry;
use entry::order::precedes;

// The child that the sinking entry gives way to: it comes after that, and the other child does not come after it; or n where none of the first
// n does. Children are compared with each other only where one of them goes up, so that long names cost no more than they move.
fn rising_child(text: &[u8], file: &[u8], sinking: Entry, i: usize, n: usize) -> usize
    requires { (i < n) × (n ≤ length file.now / 16) }
    ensures { Gives text.now (entry_in file.now) sinking i n result }
{
    let left = 2 * i + 1;
    if n <= left {
        return n;
    }
    let first = entry::read(file, left);
    let right = 2 * i + 2;
    if n <= right {
        if precedes(text, sinking, first) {
            return left;
        }
        return n;
    }
    let second = entry::read(file, right);
    if !precedes(text, sinking, first) {
        if precedes(text, sinking, second) {
            return right;
        }
        return n;
    }
    if precedes(text, first, second) {
        return right;
    }
    left
}

// Lets the entry at the start sink among the first n, until none of its children comes after it. It is read once: reading what was just written
// by bytes is slow. How far it sinks is told
// by what stands below it, so no `for` gives its places.
fn sift(text: &[u8], file: &mut [u8], start: usize, n: usize)
    requires { (start < n) × (n ≤ length file.old / 16) }
    ensures { Sifts text.now start n file.old file.new }
{
    let sinking = entry::read(file, start);
    let mut i = start;
    loop {
        let c = rising_child(text, file, sinking, i, n);
        if c == n {
            break;
        }
        rowfile::swap(file, Entry::SIZE, i, c);
        i = c;
    }
}

// Makes a heap of all entries: none comes after the one at half its position.
fn heap(text: &[u8], file: &mut [u8])
    ensures { Heaps text.now file.old file.new }
{
    let n = file.len() / Entry::SIZE;
    for i in (0..n / 2).rev() {
        sift(text, file, i, n);
    }
}

// Sorts the entries of the file; bytes past the last whole entry are kept.
pub fn sort(text: &[u8], file: &mut [u8])
    ensures { Sorts text.now file.old file.new }
{
    heap(text, file);
    for end in (1..file.len() / Entry::SIZE).rev() {
        rowfile::swap(file, Entry::SIZE, 0, end);
        sift(text, file, 0, end);
    }
}
