// What the copies of a set do next.
ghost use Rattle.std.specs.Prelude.{◌≡◌, ◌↔◌, ◌≤◌, ◌&&◌, ◌||◌, not, IsTrue};
ghost use Rattle.sm_syntax.specs.claim.Syntax.{End};
ghost use Rattle.sm_syntax.specs.trees.Copies.{copy_named, of_copy};
ghost use Rattle.sm_syntax.specs.trees.Views.{statement_of};
ghost use Rattle.sm_term.specs.SameTerms.{same_code};
ghost use Rattle.sm_plan.specs.Copies as sets;
ghost use Rattle.sm_plan.specs.Masks.{set_of};
ghost use Rattle.sm_plan.specs.Statements as plain;
ghost use Rattle.sm_plan.specs.Views.{rest_code};
ghost use Rattle.sm_moves.specs.Moves as spec;
ghost use Rattle.sm_moves.specs.MovesWithin.{IsMoveWithin};
ghost use Rattle.sm_moves.specs.ProgramMoves.{begins, those, move_in};

use crate::masks::{has, is_empty, least, mask_of, size};
use sm_plan::Continuation;
use sm_syntax::{CopyName, PerCopy, Stmt, same_block, same_cond, same_expr};

/// What the copies of a set do next.
#[derive(Clone, Copy)]
pub enum Move {
    /// Nothing is left.
    Done,
    /// A copy takes a step.
    Step(CopyName),
    /// Some copies summarize their first statement, which is the same.
    Summaries(u8),
    /// A copy forks.
    Fork(CopyName),
    /// The loops of some copies run together.
    Loops(u8),
}

/// How code may begin: with any statement, with skip or an assignment, with an if, with a loop.
#[derive(Clone, Copy)]
pub enum Front {
    Any,
    Simple,
    Fork,
    Loop,
}

// Whether a statement comes first that code may begin with so.
fn starts(rest: &Continuation<'_>, front: Front) -> bool
    ensures { result ≡ begins front (rest_code rest.now) }
{
    match front {
        Front::Any => !rest.is_over(),
        Front::Simple => is_simple(rest),
        Front::Fork => is_fork(rest),
        Front::Loop => rest.first_loop().is_some(),
    }
}

// Whether skip or an assignment comes first.
fn is_simple(rest: &Continuation<'_>) -> bool
    ensures { result ≡ begins Front.Simple (rest_code rest.now) }
{
    match rest.first() {
        Some(Stmt::Skip) => true,
        Some(Stmt::Assign(_, _)) => true,
        Some(Stmt::Store(_, _, _)) => true,
        _ => false,
    }
}

// Whether an if comes first.
fn is_fork(rest: &Continuation<'_>) -> bool
    ensures { result ≡ begins Front.Fork (rest_code rest.now) }
{
    match rest.first() {
        Some(Stmt::If(_, _, _)) => true,
        _ => false,
    }
}

// Whether a copy is in a set and its code begins so.
fn stands(rests: &PerCopy<Continuation<'_>>, set: u8, front: Front, copy: CopyName) -> bool
    ensures { let c = copy_named copy in
        result ≡ (sets.has (set_of set) c && begins front (rest_code (of_copy rests.now c))) }
{
    has(set, copy) && starts(rests.get(copy), front)
}

// The copies of a set whose code begins so.
fn beginning(rests: &PerCopy<Continuation<'_>>, set: u8, front: Front) -> u8
    ensures set { set_of result
        ≡ those (set_of set) (begins front) (λ c. rest_code (of_copy rests.now c)) }
    ensures within { result ≤ 15 }
{
    mask_of(PerCopy {
        base: stands(rests, set, front, CopyName::O),
        variant_a: stands(rests, set, front, CopyName::A),
        variant_b: stands(rests, set, front, CopyName::B),
        candidate: stands(rests, set, front, CopyName::M),
    })
}

// Whether two statements are the same.
fn same_stmt(a: &Stmt, b: &Stmt) -> bool
    ensures { IsTrue result ↔ statement_of a.now End ≡ statement_of b.now End }
{
    match (a, b) {
        (Stmt::Skip, Stmt::Skip) => true,
        (Stmt::Assign(x, d), Stmt::Assign(y, e)) => x.0 == y.0 && same_expr(d, e),
        (Stmt::Store(x, i, d), Stmt::Store(y, j, e)) => {
            x.0 == y.0 && same_expr(i, j) && same_expr(d, e)
        }
        (Stmt::If(b, c, d), Stmt::If(e, f, g)) => {
            same_cond(b, e) && same_block(c, f) && same_block(d, g)
        }
        (Stmt::While(b, c), Stmt::While(d, e)) => same_cond(b, d) && same_block(c, e),
        (Stmt::Hole(g), Stmt::Hole(h)) => *g == *h,
        _ => false,
    }
}

// Whether code begins with a statement.
fn begins_with(rest: &Continuation<'_>, statement: &Stmt) -> bool
    ensures { result
        ≡ same_code (statement_of statement.now End) (plain.front 1 (rest_code rest.now)) }
{
    match rest.first() {
        Some(first) => same_stmt(statement, first),
        None => false,
    }
}

// Whether a copy's code begins with a statement, where the copy is in a set.
fn agrees(rests: &PerCopy<Continuation<'_>>, set: u8, statement: &Stmt, copy: CopyName) -> bool
    ensures { let c = copy_named copy in
        let front = plain.front 1 (rest_code (of_copy rests.now c)) in
        result ≡ (not (sets.has (set_of set) c)
        || same_code (statement_of statement.now End) front) }
{
    !has(set, copy) || begins_with(rests.get(copy), statement)
}

// Whether the code of each copy of a set begins with a statement.
fn all_agree(rests: &PerCopy<Continuation<'_>>, set: u8, statement: &Stmt) -> bool
    ensures { result ≡ sets.each (λ c. not (sets.has (set_of set) c)
        || same_code (statement_of statement.now End)
        (plain.front 1 (rest_code (of_copy rests.now c)))) }
{
    agrees(rests, set, statement, CopyName::O)
        && (agrees(rests, set, statement, CopyName::A)
            && (agrees(rests, set, statement, CopyName::B)
                && agrees(rests, set, statement, CopyName::M)))
}

// Whether the copies of a set, of which each has something left, begin with the same statement.
fn is_shared(rests: &PerCopy<Continuation<'_>>, set: u8) -> bool
    ensures { result ≡ spec.is_shared (set_of set)
        (λ c. plain.front 1 (rest_code (of_copy rests.now c))) }
{
    let Some(copy) = least(set) else {
        return true;
    };
    match rests.get(copy).first() {
        Some(statement) => all_agree(rests, set, statement),
        None => is_empty(beginning(rests, set, Front::Any)),
    }
}

// Whether all that have something left begin with the same statement, which is a loop, is that of
// two or more, or is that of a copy alone.
fn are_alike(rests: &PerCopy<Continuation<'_>>, set: u8, left: u8) -> bool
    ensures { result ≡ spec.are_alike (set_of set) (set_of left)
        (λ c. rest_code (of_copy rests.now c)) }
{
    let has_loop = !is_empty(beginning(rests, left, Front::Loop));
    let may_stand = has_loop || (2 <= size(left) || size(set) == 1);
    may_stand && is_shared(rests, left)
}

// The move of a set, where some of it have something left.
fn next_move(rests: &PerCopy<Continuation<'_>>, set: u8, left: u8) -> Move
    requires { left ≤ 15 }
    ensures made { move_in result ≡ spec.next_move (set_of set) (set_of left)
        (λ c. rest_code (of_copy rests.now c)) }
    ensures within { IsMoveWithin result }
{
    if let Some(copy) = least(beginning(rests, left, Front::Simple)) {
        return Move::Step(copy);
    }
    if are_alike(rests, set, left) {
        return Move::Summaries(left);
    }
    match least(beginning(rests, left, Front::Fork)) {
        Some(copy) => Move::Fork(copy),
        None => Move::Loops(left),
    }
}

/// The move of a set.
pub fn move_of(rests: &PerCopy<Continuation<'_>>, set: u8) -> Move
    ensures made { move_in result
        ≡ spec.move_of (set_of set) (λ c. rest_code (of_copy rests.now c)) }
    ensures within { IsMoveWithin result }
{
    let left = beginning(rests, set, Front::Any);
    if is_empty(left) {
        return Move::Done;
    }
    next_move(rests, set, left)
}
