// Lines as bytes.
ghost use Rattle.std.specs.Prelude.{◌≡◌, ◌∷◌, ◌++◌, [], OnOk, decimal};
ghost use Rattle.sm_proof.specs.HeadWords.{form_word, head_word, term_word};
ghost use Rattle.sm_proof.specs.Lines.{Form, Header, Node, Term};
ghost use Rattle.sm_write.specs.Bytes.{line_text, numbers_text, one_word, two_words};
ghost use Rattle.sm_write.specs.Versions.{version_where};

use itoa::Buffer;
use sm_proof::{FormKind, FormLine, Head, NodeLine, TermKind, TermLine};
use std::alloc::AllocError;

// A number behind a space.
fn put_number(text: &mut Vec<u8>, n: u64) -> Result<(), AllocError>
    ensures { OnOk result (text.new.items ≡ text.old.items ++ (32 ∷ decimal n)) }
{
    let mut buffer = Buffer::new();
    text.push(b' ')?;
    text.extend_from_slice(buffer.format(n).as_bytes())?;
    Ok(())
}

// Numbers, each behind a space.
fn put_numbers(text: &mut Vec<u8>, numbers: &[u64]) -> Result<(), AllocError>
    ensures { OnOk result (text.new.items ≡ text.old.items ++ numbers_text numbers.now) }
{
    for n in numbers {
        put_number(text, *n)?;
    }
    Ok(())
}

// A line of one word and numbers.
pub(crate) fn put_line(text: &mut Vec<u8>, word: &str, numbers: &[u64]) -> Result<(), AllocError>
    ensures { OnOk result (text.new.items ≡ text.old.items ++ one_word word.now numbers.now) }
{
    text.extend_from_slice(word.as_bytes())?;
    put_numbers(text, numbers)?;
    text.push(b'\n')?;
    Ok(())
}

// A line of one word and the numbers of two lists.
pub(crate) fn put_two_lists(
    text: &mut Vec<u8>,
    word: &str,
    first: &[u64],
    second: &[u64],
) -> Result<(), AllocError>
    ensures { OnOk result (text.new.items
        ≡ text.old.items ++ one_word word.now (first.now ++ second.now)) }
{
    text.extend_from_slice(word.as_bytes())?;
    put_numbers(text, first)?;
    put_numbers(text, second)?;
    text.push(b'\n')?;
    Ok(())
}

// A line of two words and numbers.
fn put_second(
    text: &mut Vec<u8>,
    first: &str,
    second: &str,
    numbers: &[u64],
) -> Result<(), AllocError>
    ensures { OnOk result (text.new.items
        ≡ text.old.items ++ two_words first.now second.now numbers.now) }
{
    text.extend_from_slice(first.as_bytes())?;
    text.push(b' ')?;
    put_line(text, second, numbers)?;
    Ok(())
}

// A line that makes a literal.
fn put_literal(text: &mut Vec<u8>, value: i128) -> Result<(), AllocError>
    ensures { OnOk result
        (text.new.items ≡ text.old.items ++ line_text (Term (TermLine.Lit value))) }
{
    let mut buffer = Buffer::new();
    text.extend_from_slice(b"t lit ")?;
    text.extend_from_slice(buffer.format(value).as_bytes())?;
    text.push(b'\n')?;
    Ok(())
}

// A line `t` of a kind with numbers.
fn put_kind(text: &mut Vec<u8>, kind: TermKind, numbers: &[u64]) -> Result<(), AllocError>
    ensures { OnOk result (text.new.items
        ≡ text.old.items ++ two_words (head_word Head.T) (term_word kind) numbers.now) }
{
    put_second(text, Head::T.word(), kind.word(), numbers)
}

/// A line that makes a term.
pub(crate) fn put_term(text: &mut Vec<u8>, line: TermLine) -> Result<(), AllocError>
    ensures { OnOk result (text.new.items ≡ text.old.items ++ line_text (Term line)) }
{
    match line {
        TermLine::Lit(value) => put_literal(text, value),
        TermLine::Start(x) => put_kind(text, TermKind::Start, &[x]),
        TermLine::Cell => put_kind(text, TermKind::Cell, &[]),
        TermLine::Slot { copy, name } => put_kind(text, TermKind::Slot, &[copy as u64, name]),
        TermLine::Cur { copy, name } => put_kind(text, TermKind::Cur, &[copy as u64, name]),
        TermLine::Of { fact, side } => put_kind(text, TermKind::Of, &[fact, side as u64]),
        TermLine::Arg { term, place } => put_kind(text, TermKind::Arg, &[term, place]),
        TermLine::Read(t, u) => put_kind(text, TermKind::Read, &[t, u]),
        TermLine::Write(t, u, v) => put_kind(text, TermKind::Write, &[t, u, v]),
        TermLine::Neg(t) => put_kind(text, TermKind::Neg, &[t]),
        TermLine::Add(t, u) => put_kind(text, TermKind::Add, &[t, u]),
        TermLine::Sub(t, u) => put_kind(text, TermKind::Sub, &[t, u]),
        TermLine::Mul(t, u) => put_kind(text, TermKind::Mul, &[t, u]),
    }
}

// A line `p` of a kind with numbers.
fn put_form_kind(text: &mut Vec<u8>, kind: FormKind, numbers: &[u64]) -> Result<(), AllocError>
    ensures { OnOk result (text.new.items
        ≡ text.old.items ++ two_words (head_word Head.P) (form_word kind) numbers.now) }
{
    put_second(text, Head::P.word(), kind.word(), numbers)
}

/// A line that makes a formula.
pub(crate) fn put_form(text: &mut Vec<u8>, line: FormLine) -> Result<(), AllocError>
    ensures { OnOk result (text.new.items ≡ text.old.items ++ line_text (Form line)) }
{
    match line {
        FormLine::Yes => put_form_kind(text, FormKind::Yes, &[]),
        FormLine::No => put_form_kind(text, FormKind::No, &[]),
        FormLine::Eq(t, u) => put_form_kind(text, FormKind::Eq, &[t, u]),
        FormLine::Ne(t, u) => put_form_kind(text, FormKind::Ne, &[t, u]),
        FormLine::Le(t, u) => put_form_kind(text, FormKind::Le, &[t, u]),
        FormLine::Lt(t, u) => put_form_kind(text, FormKind::Lt, &[t, u]),
        FormLine::And(p, q) => put_form_kind(text, FormKind::And, &[p, q]),
        FormLine::Or(p, q) => put_form_kind(text, FormKind::Or, &[p, q]),
    }
}

// A line of a head with numbers.
pub(crate) fn put_head(text: &mut Vec<u8>, head: Head, numbers: &[u64]) -> Result<(), AllocError>
    ensures { OnOk result (text.new.items
        ≡ text.old.items ++ one_word (head_word head) numbers.now) }
{
    put_line(text, head.word(), numbers)
}

/// A line of a node.
pub(crate) fn put_node(text: &mut Vec<u8>, line: NodeLine) -> Result<(), AllocError>
    ensures { OnOk result (text.new.items ≡ text.old.items ++ line_text (Node line)) }
{
    match line {
        NodeLine::Step { copy } => put_head(text, Head::Step, &[copy as u64]),
        NodeLine::Abs { copy, count } => put_head(text, Head::Abs, &[copy as u64, count]),
        NodeLine::Fork { copy } => put_head(text, Head::Fork, &[copy as u64]),
        NodeLine::Loop { set, keep } => put_head(text, Head::Loop, &[set as u64, keep]),
        NodeLine::Block {
            k0,
            k1,
            k2,
            k3,
            keep,
        } => put_head(text, Head::Block, &[k0, k1, k2, k3, keep]),
        NodeLine::Dead => put_head(text, Head::Dead, &[]),
        NodeLine::End => put_head(text, Head::End, &[]),
    }
}

// The version of a file that has lines `exact` or none, for a task that assumes something or nothing.
fn version_where(has_exact: bool, assumes: bool) -> u64
    ensures { result ≡ version_where has_exact assumes }
{
    if has_exact {
        3
    } else if assumes {
        2
    } else {
        1
    }
}

/// The version line of a file that has lines `exact` or none, for a task that assumes something or
/// nothing.
pub(crate) fn put_version(
    text: &mut Vec<u8>,
    has_exact: bool,
    assumes: bool,
) -> Result<(), AllocError>
    ensures { OnOk result (text.new.items
        ≡ text.old.items ++ line_text (Header (version_where has_exact assumes))) }
{
    let version = version_where(has_exact, assumes);
    put_line(text, "safemerge-proof", &[version])
}
