// Puts the canonical text of expressions and conditions at the end of a list of bytes.
ghost use Rattle.std.specs.Prelude.{◌≡◌, ◌<◌, ◌++◌, [], length, OnOk, unwrap_or, slice_get, codes};
ghost use Rattle.std.specs.Fmt.{signed_decimal};
ghost use Rattle.sm_syntax.specs.text.ConditionGrammar.{comparison};
ghost use Rattle.sm_syntax.specs.trees.Views.{expression_of, condition_of};
ghost use Rattle.sm_text.specs.printing.Canonical as canonical;
ghost use Rattle.sm_text.specs.printing.Named.{IsNamedIn, IsTestedIn};
ghost use Rattle.sm_text.specs.printing.Pieces.{pieces_text, spelling};

use sm_syntax::{Cmp, Cond, Expr, Name, NameTable};
use std::alloc::AllocError;

/// A name's text.
pub(crate) fn put_name(out: &mut Vec<u8>, names: &NameTable, name: Name) -> Result<(), AllocError>
    requires { name.0 < length names.now }
    ensures { OnOk result
        (out.new.items ≡ out.old.items ++ unwrap_or (slice_get names.now name.0) []) }
{
    out.extend_from_slice(names.text(name).as_bytes())
}

/// A number in decimal.
pub(crate) fn put_number(out: &mut Vec<u8>, number: i128) -> Result<(), AllocError>
    ensures { OnOk result (out.new.items ≡ out.old.items ++ signed_decimal number) }
{
    let mut digits = itoa::Buffer::new();
    out.extend_from_slice(digits.format(number).as_bytes())
}

/// Whether an operand stands without parentheses.
fn is_atom(e: &Expr) -> bool
    ensures { result ≡ canonical.is_atom (expression_of e.now) }
{
    matches!(e, Expr::Num(_) | Expr::Var(_) | Expr::Read(_, _))
}

/// An expression.
#[cycle(put_expression)]
pub(crate) fn put_expr(out: &mut Vec<u8>, names: &NameTable, e: &Expr) -> Result<(), AllocError>
    requires { IsNamedIn (length names.now) (expression_of e.now) }
    ensures { OnOk result
        (out.new.items ≡ out.old.items
        ++ pieces_text names.now (canonical.expression_pieces (expression_of e.now))) }
{
    match e {
        Expr::Num(n) => put_number(out, *n),
        Expr::Var(x) => put_name(out, names, *x),
        Expr::Read(a, i) => put_element(out, names, *a, i),
        Expr::Neg(d) => {
            out.extend_from_slice(b"-")?;
            put_operand(out, names, d)
        }
        Expr::Add(d, e) => put_operands(out, names, d, b" + ", e),
        Expr::Sub(d, e) => put_operands(out, names, d, b" - ", e),
        Expr::Mul(d, e) => put_operands(out, names, d, b" * ", e),
    }
}

/// An element of an array.
#[cycle(put_expression)]
pub(crate) fn put_element(
    out: &mut Vec<u8>,
    names: &NameTable,
    a: Name,
    i: &Expr,
) -> Result<(), AllocError>
    requires array { a.0 < length names.now }
    requires index { IsNamedIn (length names.now) (expression_of i.now) }
    ensures { OnOk result
        (out.new.items ≡ out.old.items
        ++ pieces_text names.now
        (canonical.element_pieces a.0 (canonical.expression_pieces (expression_of i.now)))) }
{
    put_name(out, names, a)?;
    out.extend_from_slice(b"[")?;
    put_expr(out, names, i)?;
    out.extend_from_slice(b"]")
}

/// An operand, in parentheses unless it is an atom.
#[cycle(put_expression)]
fn put_operand(out: &mut Vec<u8>, names: &NameTable, e: &Expr) -> Result<(), AllocError>
    requires { IsNamedIn (length names.now) (expression_of e.now) }
    ensures { OnOk result
        (out.new.items ≡ out.old.items
        ++ pieces_text names.now (canonical.operand_pieces (expression_of e.now))) }
{
    if is_atom(e) {
        return put_expr(out, names, e);
    }
    out.extend_from_slice(b"(")?;
    put_expr(out, names, e)?;
    out.extend_from_slice(b")")
}

/// Two operands, with an operator between them.
#[cycle(put_expression)]
fn put_operands(
    out: &mut Vec<u8>,
    names: &NameTable,
    d: &Expr,
    sign: &[u8],
    e: &Expr,
) -> Result<(), AllocError>
    requires left { IsNamedIn (length names.now) (expression_of d.now) }
    requires right { IsNamedIn (length names.now) (expression_of e.now) }
    ensures { OnOk result
        (out.new.items ≡ out.old.items
        ++ pieces_text names.now (canonical.operand_pieces (expression_of d.now)) ++ sign.now
        ++ pieces_text names.now (canonical.operand_pieces (expression_of e.now))) }
{
    put_operand(out, names, d)?;
    out.extend_from_slice(sign)?;
    put_operand(out, names, e)
}

/// A comparison, with a space on both sides.
fn put_comparison(out: &mut Vec<u8>, op: Cmp) -> Result<(), AllocError>
    ensures { OnOk result
        (out.new.items ≡ out.old.items ++ codes " " ++ spelling (comparison op) ++ codes " ") }
{
    match op {
        Cmp::Eq => out.extend_from_slice(b" == "),
        Cmp::Ne => out.extend_from_slice(b" != "),
        Cmp::Lt => out.extend_from_slice(b" < "),
        Cmp::Le => out.extend_from_slice(b" <= "),
        Cmp::Gt => out.extend_from_slice(b" > "),
        Cmp::Ge => out.extend_from_slice(b" >= "),
    }
}

/// Whether a part of a condition stands without brackets.
fn is_test(c: &Cond) -> bool
    ensures { result ≡ canonical.is_test (condition_of c.now) }
{
    matches!(c, Cond::Yes | Cond::No | Cond::Cmp(_, _, _))
}

/// A condition.
#[cycle(put_condition)]
pub(crate) fn put_cond(out: &mut Vec<u8>, names: &NameTable, c: &Cond) -> Result<(), AllocError>
    requires { IsTestedIn (length names.now) (condition_of c.now) }
    ensures { OnOk result
        (out.new.items ≡ out.old.items
        ++ pieces_text names.now (canonical.condition_pieces (condition_of c.now))) }
{
    match c {
        Cond::Yes => out.extend_from_slice(b"true"),
        Cond::No => out.extend_from_slice(b"false"),
        Cond::Cmp(op, d, e) => {
            put_expr(out, names, d)?;
            put_comparison(out, *op)?;
            put_expr(out, names, e)
        }
        Cond::Not(b) => {
            out.extend_from_slice(b"!")?;
            put_part(out, names, b)
        }
        Cond::And(b, d) => put_parts(out, names, b, b" && ", d),
        Cond::Or(b, d) => put_parts(out, names, b, b" || ", d),
    }
}

/// A part of a condition, in brackets unless it is a test.
#[cycle(put_condition)]
fn put_part(out: &mut Vec<u8>, names: &NameTable, c: &Cond) -> Result<(), AllocError>
    requires { IsTestedIn (length names.now) (condition_of c.now) }
    ensures { OnOk result
        (out.new.items ≡ out.old.items
        ++ pieces_text names.now (canonical.part_pieces (condition_of c.now))) }
{
    if is_test(c) {
        return put_cond(out, names, c);
    }
    out.extend_from_slice(b"[")?;
    put_cond(out, names, c)?;
    out.extend_from_slice(b"]")
}

/// Two parts of a condition, with an operator between them.
#[cycle(put_condition)]
fn put_parts(
    out: &mut Vec<u8>,
    names: &NameTable,
    b: &Cond,
    sign: &[u8],
    c: &Cond,
) -> Result<(), AllocError>
    requires left { IsTestedIn (length names.now) (condition_of b.now) }
    requires right { IsTestedIn (length names.now) (condition_of c.now) }
    ensures { OnOk result
        (out.new.items ≡ out.old.items
        ++ pieces_text names.now (canonical.part_pieces (condition_of b.now)) ++ sign.now
        ++ pieces_text names.now (canonical.part_pieces (condition_of c.now))) }
{
    put_part(out, names, b)?;
    out.extend_from_slice(sign)?;
    put_part(out, names, c)
}
