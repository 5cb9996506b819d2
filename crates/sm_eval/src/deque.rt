// A list that grows at both ends and lies in one piece.
ghost use Rattle.std.specs.Prelude.{◌≡◌, ◌<◌, ◌≤◌, ◌+◌, ◌-◌, ◌++◌, pos, [], length, drop, slice_index_or, slice_set, IfOk, OnOk, OnErr};
ghost use Rattle.std.specs.List.{insert, remove};

use std::alloc::{AllocError, Global};
use std::marker::Model;

/// A list of pairs. A pair that is inserted moves those before it or those after it, whichever
/// are fewer.
#[derive(Drop)]
pub struct Deque {
    // The pairs stand from `front` on. What stands before is room for more, never more than there
    // were pairs at one time.
    items: Vec<(i128, i128)>,
    front: usize,
}

impl Model for Deque {
    ghost use Rattle.std.specs.Prelude.{◌≤◌, List, ℤ, drop, length};

    ghost Value = { List (ℤ × ℤ) };

    ghost view = { λ d. drop d.front d.items.items };

    ghost invariant = { λ d. d.front ≤ length d.items.items };
}

impl Deque {
    /// No pairs.
    pub fn new(alloc: Global) -> Deque
        ensures { result ≡ [] }
    {
        Deque {
            items: Vec::new(alloc),
            front: 0,
        }
    }

    /// The pairs.
    pub fn as_slice(&self) -> &[(i128, i128)]
        ensures { result.now ≡ self.now }
    {
        &self.items[self.front..]
    }

    /// The pair at a place.
    pub fn get(&self, at: usize) -> &(i128, i128)
        requires { at < length self.now }
        ensures { result.now ≡ slice_index_or self.now at (pos 0, pos 0) }
    {
        &self.items[self.front + at]
    }

    /// Puts a pair in the place of another.
    pub fn put(&mut self, at: usize, pair: (i128, i128))
        requires { at < length self.old }
        ensures { self.new ≡ slice_set self.old at pair }
    {
        self.items[self.front + at] = pair;
    }

    /// Takes a pair out.
    pub fn remove(&mut self, at: usize)
        requires { at < length self.old }
        ensures { self.new ≡ remove self.old at }
    {
        let _ = self.items.remove(self.front + at);
    }

    /// Puts a pair before another, or last.
    pub fn insert(&mut self, at: usize, pair: (i128, i128)) -> Result<(), AllocError>
        requires { at ≤ length self.old }
        ensures ok { OnOk result (self.new ≡ insert self.old at pair) }
        ensures err { OnErr result (self.new ≡ self.old) }
    {
        if at >= self.items.len() - self.front - at {
            return Ok(self.items.insert(self.front + at, pair)?);
        }
        if self.front == 0 {
            self.front = double(&mut self.items)?;
        }
        insert_before(&mut self.items, self.front, at, pair);
        self.front -= 1;
        Ok(())
    }

    /// A copy of the pairs.
    pub fn copy(&self, alloc: Global) -> Result<Deque, AllocError>
        ensures { IfOk result (λ d. d ≡ self.now) }
    {
        Ok(Deque {
            items: self.as_slice().to_vec(alloc)?,
            front: 0,
        })
    }
}

// As many places before the items as there are items, which is the answer.
fn double(items: &mut Vec<(i128, i128)>) -> Result<usize, AllocError>
    ensures count { IfOk result (λ n. n ≡ length items.old.items) }
    ensures ok { OnOk result (items.new.items ≡ items.old.items ++ items.old.items) }
    ensures err { OnErr result (items.new.items ≡ items.old.items) }
{
    let count = items.len();
    items.extend_from_within(..)?;
    Ok(count)
}

// Puts a pair among those from `front` on, and moves those before it one place down.
fn insert_before(items: &mut Vec<(i128, i128)>, front: usize, at: usize, pair: (i128, i128))
    requires room { 0 < front }
    requires in_range { front + at ≤ length items.old.items }
    ensures pairs { drop (front - 1) items.new.items ≡ insert (drop front items.old.items) at pair }
    ensures len { length items.new.items ≡ length items.old.items }
{
    items.copy_within(front..front + at, front - 1);
    items[front - 1 + at] = pair;
}
