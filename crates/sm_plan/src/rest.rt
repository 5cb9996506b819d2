// What is left of programs.
ghost use Rattle.std.specs.Prelude.{◌≡◌, ◌≤◌, ℕ, take, drop, length, map, option_map, IfOk, OnOk, MatchOption};
ghost use Rattle.std.specs.List.Sorted.{IsStrictlyIncreasing};
ghost use Rattle.sm_syntax.specs.Assigns.{assigns};
ghost use Rattle.sm_syntax.specs.claim.Syntax.{Code, End, append};
ghost use Rattle.sm_syntax.specs.text.Conditions.{is_in};
ghost use Rattle.sm_syntax.specs.trees.Programs.{outputs_of};
ghost use Rattle.sm_syntax.specs.trees.Views.{condition_of, statement_of, code_of, sequence};
ghost use Rattle.sm_plan.specs.Statements as plain;
ghost use Rattle.sm_plan.specs.Views.{code_before, frames_before, rest_code};

use sm_deps::writes;
use sm_syntax::{Block, Cond, Outputs, Stmt, copy_stmt};
use std::alloc::{AllocError, Global};

/// What is left of a copy's program, as statements of its blocks. What comes next stands at the
/// front of the last slice.
#[derive(Drop)]
pub struct Continuation<'a> {
    pub frames: Vec<&'a [Stmt]>,
}

impl<'a> Continuation<'a> {
    /// Nothing.
    pub fn empty(alloc: Global) -> Continuation<'a>
        ensures { rest_code result ≡ End }
    {
        Continuation {
            frames: Vec::new(alloc),
        }
    }

    /// A whole block.
    pub fn of(alloc: Global, block: &'a Block) -> Result<Continuation<'a>, AllocError>
        ensures { IfOk result (λ r. rest_code r ≡ code_of block.now) }
    {
        let mut rest = Continuation::empty(alloc);
        rest.put_before(block)?;
        Ok(rest)
    }

    /// A copy of what is left.
    pub fn copy(&self, alloc: Global) -> Result<Continuation<'a>, AllocError>
        ensures { IfOk result (λ r. rest_code r ≡ rest_code self.now) }
    {
        self.above(alloc, 0, &[])
    }

    /// The next statement.
    pub fn first(&self) -> Option<&'a Stmt>
        ensures { let code = rest_code self.now in let left = plain.rest_after 1 code in
            MatchOption result (code ≡ End) (λ s. code ≡ statement_of s.now left) }
    {
        let mut place = self.frames.len();
        while place > 0 {
            place -= 1;
            let frame = self.frames[place];
            if let Some(statement) = frame.first() {
                return Some(statement);
            }
        }
        None
    }

    /// Whether nothing is left.
    pub fn is_over(&self) -> bool
        ensures { result ≡ plain.is_over (rest_code self.now) }
    {
        self.first().is_none()
    }

    /// The guard and the body of the loop that comes next.
    pub fn first_loop(&self) -> Option<(&'a Cond, &'a Block)>
        ensures { option_map (λ p. (condition_of p.0.now, code_of p.1.now)) result
            ≡ plain.first_loop (rest_code self.now) }
    {
        match self.first() {
            Some(Stmt::While(guard, body)) => Some((guard, body)),
            _ => None,
        }
    }

    /// Whether at least `count` statements are left.
    pub fn is_long(&self, count: u64) -> bool
        ensures { result ≡ plain.is_long count (rest_code self.now) }
    {
        let mut left = count;
        let mut place = self.frames.len();
        while place > 0 {
            place -= 1;
            let len = self.frames[place].len() as u64;
            if left <= len {
                return true;
            }
            left -= len;
        }
        left == 0
    }

    /// The first `count` statements, or all where fewer are left.
    pub fn front(&self, alloc: Global, count: u64) -> Result<Continuation<'a>, AllocError>
        ensures { IfOk result (λ r. rest_code r ≡ plain.front count (rest_code self.now)) }
    {
        let mut left = count;
        let mut place = self.frames.len();
        while place > 0 {
            place -= 1;
            let frame = self.frames[place];
            let len = frame.len() as u64;
            if left <= len {
                return self.above(alloc, place + 1, first_part(frame, left as usize));
            }
            left -= len;
        }
        self.above(alloc, 0, &[])
    }

    // The slices from a place on, before the statements of one more.
    fn above(
        &self,
        alloc: Global,
        place: usize,
        last: &'a [Stmt],
    ) -> Result<Continuation<'a>, AllocError>
        requires { place ≤ length self.now.frames.items }
        ensures { let frames = drop place self.now.frames.items in
            IfOk result (λ r. rest_code r ≡ frames_before frames (code_before last.now End)) }
    {
        let mut frames = Vec::new(alloc);
        frames.push(last)?;
        for frame in frames_from(&self.frames, place) {
            frames.push(*frame)?;
        }
        Ok(Continuation { frames })
    }

    /// Leaves what comes after the first `count` statements, nothing where fewer are left.
    pub fn drop_front(&mut self, count: u64)
        ensures { rest_code self.new ≡ plain.rest_after count (rest_code self.old) }
    {
        let mut left = count;
        let mut place = self.frames.len();
        while place > 0 {
            place -= 1;
            let frame = self.frames[place];
            let len = frame.len() as u64;
            if left < len {
                self.frames[place] = last_part(frame, left as usize);
                return;
            }
            left -= len;
            self.frames.truncate(place);
        }
    }

    /// Puts a block's statements before what is left.
    pub fn put_before(&mut self, block: &'a Block) -> Result<(), AllocError>
        ensures { OnOk result
            (rest_code self.new ≡ append (code_of block.now) (rest_code self.old)) }
    {
        self.drop_front(0);
        self.frames.push(&block.list)?;
        Ok(())
    }

    /// A block of all that is left.
    pub fn block(&self, alloc: Global) -> Result<Block, AllocError>
        ensures { IfOk result (λ b. code_of b ≡ rest_code self.now) }
    {
        let mut list = Vec::new(alloc);
        let mut place = self.frames.len();
        while place > 0 {
            place -= 1;
            copy_behind(alloc, &mut list, self.frames[place])?;
        }
        Ok(Block { list })
    }

    /// The names that are assigned in what is left, ascending.
    pub fn writes(&self, alloc: Global) -> Result<Outputs, AllocError>
        ensures ascending { IfOk result (λ o. IsStrictlyIncreasing (outputs_of o)) }
        ensures names { IfOk result (λ o.
            (x : ℕ) → is_in (outputs_of o) x ≡ assigns (rest_code self.now) x) }
    {
        let block = self.block(alloc)?;
        writes(alloc, &block)
    }
}

// The slices from a place on.
fn frames_from<'f, 'a>(frames: &'f [&'a [Stmt]], place: usize) -> &'f [&'a [Stmt]]
    requires { place ≤ length frames.now }
    ensures { result.now ≡ drop place frames.now }
{
    &frames[place..]
}

// The first statements of a slice.
fn first_part(frame: &[Stmt], len: usize) -> &[Stmt]
    requires { len ≤ length frame.now }
    ensures { result.now ≡ take len frame.now }
{
    &frame[..len]
}

// The statements of a slice from a place on.
fn last_part(frame: &[Stmt], from: usize) -> &[Stmt]
    requires { from ≤ length frame.now }
    ensures { result.now ≡ drop from frame.now }
{
    &frame[from..]
}

// Puts copies of statements behind others.
fn copy_behind(alloc: Global, list: &mut Vec<Stmt>, more: &[Stmt]) -> Result<(), AllocError>
    ensures { (k : Code) → OnOk result (sequence (map statement_of list.new.items) k
        ≡ sequence (map statement_of list.old.items) (code_before more.now k)) }
{
    for s in more {
        list.push(copy_stmt(alloc, s)?)?;
    }
    Ok(())
}
