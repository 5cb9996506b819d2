// Puts the canonical text of statements and blocks at the end of a list of bytes.
ghost use Rattle.std.specs.Prelude.{◌≡◌, ◌<◌, ◌++◌, [], length, OnOk, IfOk, codes, slice_get, unwrap_or};
ghost use Rattle.std.specs.Fmt.{decimal};
ghost use Rattle.sm_syntax.specs.claim.Syntax.{Code, End};
ghost use Rattle.sm_syntax.specs.trees.Views.{expression_of, condition_of, statement_of, code_of};
ghost use Rattle.sm_text.specs.printing.Canonical as canonical;
ghost use Rattle.sm_text.specs.printing.Named.{IsNamedIn, IsTestedIn, IsUsedIn};
ghost use Rattle.sm_text.specs.printing.Pieces as spec;
ghost use Rattle.sm_text.specs.printing.Pieces.{pieces_text};

use crate::printing::expressions::{put_cond, put_element, put_expr, put_name};
use sm_syntax::{Block, Cond, Expr, Name, NameTable, Stmt};
use std::alloc::{AllocError, Global};

/// The margin one level deeper.
pub(crate) fn deeper(alloc: Global, margin: &[u8]) -> Result<Vec<u8>, AllocError>
    ensures { IfOk result (λ m. m.items ≡ spec.deeper margin.now) }
{
    let mut wide = Vec::from_slice(alloc, b"  ")?;
    wide.extend_from_slice(margin)?;
    Ok(wide)
}

// A condition in parentheses, before a block.
#[tactic(auto, unfolding(crate::specs::printing::Canonical::guard_pieces))]
fn put_guard(out: &mut Vec<u8>, names: &NameTable, c: &Cond) -> Result<(), AllocError>
    requires { IsTestedIn (length names.now) (condition_of c.now) }
    ensures { OnOk result
        (out.new.items ≡ out.old.items
        ++ pieces_text names.now (canonical.guard_pieces (condition_of c.now))) }
{
    out.extend_from_slice(b"(")?;
    put_cond(out, names, c)?;
    out.extend_from_slice(b") ")
}

// A word, and the condition after it.
fn put_test(out: &mut Vec<u8>, names: &NameTable, word: &[u8], c: &Cond) -> Result<(), AllocError>
    requires { IsTestedIn (length names.now) (condition_of c.now) }
    ensures { OnOk result
        (out.new.items ≡ out.old.items ++ word.now
        ++ pieces_text names.now (canonical.guard_pieces (condition_of c.now))) }
{
    out.extend_from_slice(word)?;
    put_guard(out, names, c)
}

// What a name or an element becomes, up to the end of the line.
fn put_value(out: &mut Vec<u8>, names: &NameTable, e: &Expr) -> Result<(), AllocError>
    requires { IsNamedIn (length names.now) (expression_of e.now) }
    ensures { OnOk result
        (out.new.items ≡ out.old.items ++ codes " = "
        ++ pieces_text names.now (canonical.expression_pieces (expression_of e.now))
        ++ codes ";\n") }
{
    out.extend_from_slice(b" = ")?;
    put_expr(out, names, e)?;
    out.extend_from_slice(b";\n")
}

// An assignment, after its margin.
fn put_assignment(out: &mut Vec<u8>, names: &NameTable, x: Name, e: &Expr) -> Result<(), AllocError>
    requires name { x.0 < length names.now }
    requires value { IsNamedIn (length names.now) (expression_of e.now) }
    ensures { OnOk result
        (out.new.items ≡ out.old.items ++ unwrap_or (slice_get names.now x.0) [] ++ codes " = "
        ++ pieces_text names.now (canonical.expression_pieces (expression_of e.now))
        ++ codes ";\n") }
{
    put_name(out, names, x)?;
    put_value(out, names, e)
}

// A write to an element, after its margin.
fn put_write(
    out: &mut Vec<u8>,
    names: &NameTable,
    a: Name,
    i: &Expr,
    e: &Expr,
) -> Result<(), AllocError>
    requires array { a.0 < length names.now }
    requires index { IsNamedIn (length names.now) (expression_of i.now) }
    requires value { IsNamedIn (length names.now) (expression_of e.now) }
    ensures { OnOk result
        (out.new.items ≡ out.old.items
        ++ pieces_text names.now
        (canonical.element_pieces a.0 (canonical.expression_pieces (expression_of i.now)))
        ++ codes " = "
        ++ pieces_text names.now (canonical.expression_pieces (expression_of e.now))
        ++ codes ";\n") }
{
    put_element(out, names, a, i)?;
    put_value(out, names, e)
}

/// A hole: its sign and its number.
pub(crate) fn put_hole(out: &mut Vec<u8>, hole: u32) -> Result<(), AllocError>
    ensures { OnOk result (out.new.items ≡ out.old.items ++ codes "?" ++ decimal hole) }
{
    let mut digits = itoa::Buffer::new();
    out.extend_from_slice(b"?")?;
    out.extend_from_slice(digits.format(hole).as_bytes())
}

// A hole as a statement, after its margin.
fn put_hole_line(out: &mut Vec<u8>, hole: u32) -> Result<(), AllocError>
    ensures { OnOk result
        (out.new.items ≡ out.old.items ++ codes "?" ++ decimal hole ++ codes ";\n") }
{
    put_hole(out, hole)?;
    out.extend_from_slice(b";\n")
}

// The sign that opens a block, up to the end of its line. It gives the margin inside.
fn open_block(alloc: Global, out: &mut Vec<u8>, margin: &[u8]) -> Result<Vec<u8>, AllocError>
    ensures margin { IfOk result (λ m. m.items ≡ spec.deeper margin.now) }
    ensures text { OnOk result (out.new.items ≡ out.old.items ++ codes "{\n") }
{
    let inner = deeper(alloc, margin)?;
    out.extend_from_slice(b"{\n")?;
    Ok(inner)
}

// The sign that closes a block, after its margin.
fn close_block(out: &mut Vec<u8>, margin: &[u8]) -> Result<(), AllocError>
    ensures { OnOk result (out.new.items ≡ out.old.items ++ margin.now ++ codes "}") }
{
    out.extend_from_slice(margin)?;
    out.extend_from_slice(b"}")
}

// A statement, on lines after a margin.
#[cycle(put_statement)]
fn put_stmt(
    alloc: Global,
    out: &mut Vec<u8>,
    names: &NameTable,
    margin: &[u8],
    s: &Stmt,
) -> Result<(), AllocError>
    requires { IsUsedIn (length names.now) (statement_of s.now End) }
    ensures { (k : Code) → OnOk result
        (out.new.items ++ pieces_text names.now (canonical.code_pieces margin.now k)
        ≡ out.old.items
        ++ pieces_text names.now (canonical.code_pieces margin.now (statement_of s.now k))) }
{
    out.extend_from_slice(margin)?;
    match s {
        Stmt::Skip => out.extend_from_slice(b"skip;\n"),
        Stmt::Assign(x, e) => put_assignment(out, names, *x, e),
        Stmt::Store(a, i, e) => put_write(out, names, *a, i, e),
        Stmt::If(b, c, d) => {
            put_test(out, names, b"if ", b)?;
            put_branches(alloc, out, names, margin, c, d)?;
            out.extend_from_slice(b"\n")
        }
        Stmt::While(b, c) => {
            put_test(out, names, b"while ", b)?;
            put_block(alloc, out, names, margin, c)?;
            out.extend_from_slice(b"\n")
        }
        Stmt::Hole(h) => put_hole_line(out, *h),
    }
}

// The branches of a choice.
#[cycle(put_statement)]
#[tactic(auto, unfolding(crate::specs::printing::Canonical::branches))]
fn put_branches(
    alloc: Global,
    out: &mut Vec<u8>,
    names: &NameTable,
    margin: &[u8],
    c: &Block,
    d: &Block,
) -> Result<(), AllocError>
    requires then { IsUsedIn (length names.now) (code_of c.now) }
    requires other { IsUsedIn (length names.now) (code_of d.now) }
    ensures { OnOk result
        (out.new.items ≡ out.old.items ++ pieces_text names.now
        (canonical.branches
        (canonical.block_pieces margin.now (code_of c.now))
        (canonical.block_pieces margin.now (code_of d.now)))) }
{
    put_block(alloc, out, names, margin, c)?;
    out.extend_from_slice(b" else ")?;
    put_block(alloc, out, names, margin, d)
}

/// A block, whose lines but for the first stand after a margin.
#[cycle(put_statement)]
#[tactic(auto, unfolding(crate::specs::printing::Canonical::braces))]
pub(crate) fn put_block(
    alloc: Global,
    out: &mut Vec<u8>,
    names: &NameTable,
    margin: &[u8],
    b: &Block,
) -> Result<(), AllocError>
    requires { IsUsedIn (length names.now) (code_of b.now) }
    ensures { OnOk result
        (out.new.items ≡ out.old.items
        ++ pieces_text names.now (canonical.block_pieces margin.now (code_of b.now))) }
{
    let inner = open_block(alloc, out, margin)?;
    for s in &b.list {
        put_stmt(alloc, out, names, &inner, s)?;
    }
    close_block(out, margin)
}
