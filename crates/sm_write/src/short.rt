// Lines that are short enough for a proof file.
ghost use Rattle.std.specs.Prelude.{◌<◌, ◌^◌, [], ◌∷◌, List, Decides};
ghost use Rattle.sm_term.specs.Terms.{Tree};
ghost use Rattle.sm_theory.specs.Views.{line_in};
ghost use Rattle.sm_write.specs.Writable.{AreShortNumbers, IsShortLine};
ghost use Rattle.sm_write.specs.ShortFacts.{AreShortFacts};

use sm_theory::CertLine;

// Whether a number has at most 19 digits.
fn is_low(n: u64) -> bool
    ensures { Decides result (n < 2 ^ 63) }
{
    n < 9_223_372_036_854_775_808
}

// Whether a fact's number is short.
fn is_one(n: u64) -> bool
    ensures { Decides result (AreShortFacts (n ∷ [])) }
{
    is_low(n)
}

// Whether the numbers of two facts are short.
fn are_two(m: u64, n: u64) -> bool
    ensures { Decides result (AreShortFacts (m ∷ n ∷ [])) }
{
    is_low(m) && is_low(n)
}

// Whether numbers are short.
fn are_low(numbers: &[u64]) -> bool
    ensures { Decides result (AreShortNumbers numbers.now) }
{
    for n in numbers {
        if !is_low(*n) {
            return false;
        }
    }
    true
}

// Whether there are few facts, with short numbers.
fn are_few(numbers: &[u64]) -> bool
    ensures { Decides result (AreShortFacts numbers.now) }
{
    numbers.len() <= 200 && are_low(numbers)
}

/// Whether a line of a certificate is short enough for a proof file: it names at most 200 facts,
/// whose numbers have at most 19 digits.
pub fn is_short_line(line: &CertLine) -> bool
    ensures { (trees : List Tree) → Decides result (IsShortLine (line_in trees line.now)) }
{
    match line {
        CertLine::Both(n)
        | CertLine::Either(n)
        | CertLine::Order(n)
        | CertLine::Sym(n)
        | CertLine::Hit(_, n)
        | CertLine::Miss(_, _, n)
        | CertLine::Lin(n)
        | CertLine::Tight(n)
        | CertLine::Close(n) => is_one(*n),
        CertLine::Trans(m, n)
        | CertLine::Subst(m, n)
        | CertLine::Elim(m, n, _)
        | CertLine::Clash(m, n) => are_two(*m, *n),
        CertLine::Cong(_, _, facts) => are_few(&facts.list),
        _ => true,
    }
}
