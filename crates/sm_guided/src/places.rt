// The statements of a program and the comparisons of its guards, in the order of the text.
use sm_syntax::{Block, Cond, Expr, Stmt};
use std::alloc::{AllocError, Global};

/// What is known of a statement before it is run. Statements are numbered in the order of the text,
/// and so are places: a place is a comparison in a guard of an `if` or a loop.
#[derive(Clone, Copy)]
pub struct Line {
    /// How many steps it takes to compute its expressions, or its guard.
    pub steps: u64,
    /// The first place of its guard.
    pub place: usize,
    /// The number of the first statement of its first block.
    pub inside: usize,
    /// The number of the first statement of its second block.
    pub other: usize,
    /// The number of the statement behind it.
    pub next: usize,
}

/// The statements of a program.
#[derive(Drop)]
pub struct Outline {
    lines: Vec<Line>,
    places: usize,
}

impl Outline {
    /// No statements.
    pub fn new(alloc: Global) -> Outline {
        Outline {
            lines: Vec::new(alloc),
            places: 0,
        }
    }

    /// The statement with a number.
    pub fn line(&self, n: usize) -> Option<Line> {
        if n < self.lines.len() {
            return Some(self.lines[n]);
        }
        None
    }

    /// How many places there are.
    pub fn places(&self) -> usize {
        self.places
    }

    // Adds a statement without its blocks. The answer is its number.
    fn begin(&mut self, t: &Stmt) -> Result<usize, AllocError> {
        let n = self.lines.len();
        let next = n.saturating_add(1);
        self.lines.push(Line {
            steps: steps_of(t),
            place: self.places,
            inside: next,
            other: next,
            next,
        })?;
        self.places = places_of(t, self.places);
        Ok(n)
    }

    // Gives a statement the first statement of its second block, and the last added is its last.
    fn end(&mut self, n: usize, other: usize) {
        let next = self.lines.len();
        if n < next {
            self.lines[n].other = other;
            self.lines[n].next = next;
        }
    }
}

/// Adds the statements of a block with its holes filled.
#[cycle(add_statements)]
pub fn add_block(b: &Block, outline: &mut Outline) -> Result<(), AllocError> {
    for t in &b.list {
        add_statement(t, outline)?;
    }
    Ok(())
}

// Adds a statement.
#[cycle(add_statements)]
fn add_statement(t: &Stmt, outline: &mut Outline) -> Result<(), AllocError> {
    let n = outline.begin(t)?;
    match t {
        Stmt::Skip | Stmt::Assign(_, _) | Stmt::Store(_, _, _) | Stmt::Hole(_) => Ok(()),
        Stmt::If(_, d, e) => {
            add_block(d, outline)?;
            let other = outline.lines.len();
            add_block(e, outline)?;
            outline.end(n, other);
            Ok(())
        }
        Stmt::While(_, d) => {
            add_block(d, outline)?;
            outline.end(n, n);
            Ok(())
        }
    }
}

// The number of the place behind a statement's guard, whose first place this is.
fn places_of(t: &Stmt, first: usize) -> usize {
    match t {
        Stmt::Skip | Stmt::Assign(_, _) | Stmt::Store(_, _, _) | Stmt::Hole(_) => first,
        Stmt::If(c, _, _) => places_behind(c, first),
        Stmt::While(c, _) => places_behind(c, first),
    }
}

/// The number of the place behind a condition, whose first place this is.
pub fn places_behind(c: &Cond, first: usize) -> usize {
    match c {
        Cond::Yes | Cond::No => first,
        Cond::Cmp(_, _, _) => first.saturating_add(1),
        Cond::Not(b) => places_behind(b, first),
        Cond::And(b, d) | Cond::Or(b, d) => places_behind(d, places_behind(b, first)),
    }
}

// How many steps a statement takes without its blocks.
fn steps_of(t: &Stmt) -> u64 {
    match t {
        Stmt::Skip | Stmt::Hole(_) => 1,
        Stmt::Assign(_, e) => expression_steps(e),
        Stmt::Store(_, i, e) => expression_steps(i).saturating_add(expression_steps(e)),
        Stmt::If(c, _, _) => condition_steps(c),
        Stmt::While(c, _) => condition_steps(c),
    }
}

/// How many steps it takes to compute a condition.
pub fn condition_steps(c: &Cond) -> u64 {
    match c {
        Cond::Yes | Cond::No => 1,
        Cond::Cmp(_, d, e) => expression_steps(d).saturating_add(expression_steps(e)),
        Cond::Not(b) => condition_steps(b).saturating_add(1),
        Cond::And(b, d) | Cond::Or(b, d) => condition_steps(b).saturating_add(condition_steps(d)),
    }
}

// How many steps it takes to compute an expression.
fn expression_steps(e: &Expr) -> u64 {
    match e {
        Expr::Num(_) | Expr::Var(_) => 1,
        Expr::Read(_, d) | Expr::Neg(d) => expression_steps(d).saturating_add(1),
        Expr::Add(d, f) | Expr::Sub(d, f) | Expr::Mul(d, f) => {
            expression_steps(d).saturating_add(expression_steps(f))
        }
    }
}
