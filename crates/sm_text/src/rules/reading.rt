// What every rule is made of: a look at the first symbol, a step past it, and a refusal.
ghost use Rattle.std.specs.Prelude.{◌≡◌, ◌<◌, drop, length, Ok, Err, IfOk, IfErr};
ghost use Rattle.sm_text.specs.rules.Answers.{Fails, Gives};
ghost use Rattle.sm_text.specs.rules.Parsers as spec;

use sm_syntax::{Mark, Symbol};
use std::alloc::{AllocError, AllocFailed, Global};

/// Why a rule doesn't go on.
#[derive(Clone, Copy)]
pub(crate) enum FaultKind {
    Expected,
    Nested,
}

/// Where a rule doesn't go on: how many symbols are left there.
#[derive(Clone, Copy)]
pub(crate) struct Fault {
    pub kind: FaultKind,
    pub left: usize,
}

/// Why nothing was read.
#[derive(Clone, Copy)]
pub(crate) enum ReadError {
    Fault(Fault),
    Memory,
}

/// What a rule reads of the front of the symbols, and the symbols after it.
pub(crate) type Parsed<'s, T> = Result<(T, &'s [Symbol]), ReadError>;

impl From<AllocError> for ReadError {
    ghost use Rattle.std.specs.Prelude.{◌≡◌};
    ghost use Rattle.sm_text.specs.declared.rules.reading.ReadError.TheVariants.{Memory};

    ghost from_gives = { λ _ e. e ≡ Memory };

    fn from(_error: AllocError) -> ReadError {
        ReadError::Memory
    }
}

impl<T: Drop> From<AllocFailed<T>> for ReadError {
    ghost use Rattle.std.specs.Prelude.{◌≡◌};
    ghost use Rattle.sm_text.specs.declared.rules.reading.ReadError.TheVariants.{Memory};

    ghost from_gives = { λ _ e. e ≡ Memory };

    fn from(_error: AllocFailed<T>) -> ReadError {
        ReadError::Memory
    }
}

/// The first symbol, if there is one.
pub(crate) fn first(symbols: &[Symbol]) -> Option<Symbol>
    ensures { result ≡ spec.first symbols.now }
{
    symbols.first().copied()
}

/// The symbols after the first.
pub(crate) fn rest(symbols: &[Symbol]) -> &[Symbol]
    ensures { result.now ≡ spec.rest symbols.now }
{
    if symbols.is_empty() {
        symbols
    } else {
        &symbols[1..]
    }
}

/// A refusal at the first of these symbols, or at their end where there is none.
pub(crate) fn refusal(kind: FaultKind, symbols: &[Symbol]) -> ReadError
    ensures { result ≡ ReadError.Fault (spec.fault kind symbols.now) }
{
    ReadError::Fault(Fault {
        kind,
        left: symbols.len(),
    })
}

/// Steps past a reserved word or a sign that has to stand here.
#[tactic(auto, unfolding(crate::specs::rules::Parsers::expect))]
pub(crate) fn expect(mark: Mark, symbols: &[Symbol]) -> Result<&[Symbol], ReadError>
    ensures { Gives (λ after. (tt, after.now)) result (spec.expect mark symbols.now) }
{
    match first(symbols) {
        Some(Symbol::Mark(found)) if found == mark => Ok(rest(symbols)),
        _ => Err(refusal(FaultKind::Expected, symbols)),
    }
}

/// What was read, where this mark stands behind it, which is stepped past.
pub(crate) fn followed<T: Drop>(value: T, mark: Mark, symbols: &[Symbol]) -> Parsed<'_, T>
    ensures ok { IfOk result (λ x.
        (x.0 ≡ value) × (spec.expect mark symbols.now ≡ Ok (tt, x.1.now))) }
    ensures err { IfErr result (λ e. Fails e (spec.expect mark symbols.now)) }
{
    match expect(mark, symbols) {
        Ok(after) => Ok((value, after)),
        Err(error) => Err(error),
    }
}

/// What was read, and what was read behind it. Where that is a refusal, the front is let go here,
/// as a value of any type: written out for its own parts, that costs more than the rule.
pub(crate) fn beside<'s, A: Drop, B>(front: A, read: Parsed<'s, B>) -> Parsed<'s, (A, B)>
    ensures ok { IfOk result (λ x. (x.0.0 ≡ front) × (read.entry ≡ Ok (x.0.1, x.1))) }
    ensures err { IfErr result (λ e. read.entry ≡ Err e) }
{
    match read {
        Ok((value, after)) => Ok(((front, value), after)),
        Err(error) => Err(error),
    }
}

/// Two values of one type, each in a box.
pub(crate) fn boxed<T: Drop>(
    alloc: Global,
    left: T,
    right: T,
) -> Result<(Box<T>, Box<T>), AllocError>
    ensures { IfOk result (λ p. (p.0.value ≡ left) × (p.1.value ≡ right)) }
{
    let left = Box::new(alloc, left)?;
    let right = Box::new(alloc, right)?;
    Ok((left, right))
}
