// Texts of programs, heads and blocks, and lines of proofs.
ghost use Rattle.std.specs.Prelude.{length};
ghost use Rattle.sm_syntax.specs.trees.Views.{code_of, condition_of};
ghost use Rattle.sm_text.specs.Tasks.{program_parts};
ghost use Rattle.sm_text.specs.parsing.Fragments.{IsNamedProgram};
ghost use Rattle.sm_text.specs.parsing.Prefix.{AreTokensOf};
ghost use Rattle.sm_text.specs.printing.Named.{IsTestedIn, IsUsedIn};

use crate::printed::Printed;
use crate::refusal::{Refusal, told};
use crate::word::{bytes_of, natural, put_text, two, with_line_feeds};
use sm_proof::read_line;
use sm_syntax::{Block, Cond, Name, NameTable, Program, depth, nodes, well_formed};
use sm_text::{
    Tokens, names, parse_block, parse_head, parse_program, print_block, print_cond, print_program,
    tokens,
};
use std::alloc::Global;

/// Prints the canonical text of a program, where it is well formed.
pub fn program_answer(alloc: Global, text: &str, out: &mut Printed) -> Result<(), Refusal> {
    match parse_program(alloc, bytes_of(text)?) {
        Ok(program) => put_canonical(alloc, &program, out),
        Err(error) => Err(told(out, error)),
    }
}

// Prints the canonical text of a program, where it is well formed.
fn put_canonical(alloc: Global, program: &Program, out: &mut Printed) -> Result<(), Refusal>
    requires { IsNamedProgram (program_parts program.now) }
{
    match well_formed(alloc, program) {
        Ok(()) => put_text(out, &print_program(alloc, program)?),
        Err(error) => Err(told(out, error)),
    }
}

/// Prints the number of the token behind a head, its names, and what is assumed.
pub fn head_answer(alloc: Global, text: &str, out: &mut Printed) -> Result<(), Refusal> {
    let cut = tokens(alloc, text.as_bytes())?;
    put_head(alloc, text.as_bytes(), &cut, out)
}

// Prints what stands in a head, by its tokens.
fn put_head(alloc: Global, bytes: &[u8], cut: &Tokens, out: &mut Printed) -> Result<(), Refusal>
    requires { AreTokensOf bytes.now cut.now }
{
    let (program, assumed, after) = match parse_head(alloc, bytes, cut) {
        Ok(head) => head,
        Err(error) => return Err(told(out, error)),
    };
    match &assumed {
        None => {
            put_front(out, after, &program.names);
            Ok(())
        }
        Some(c) => put_assumed(alloc, after, &program.names, c, out),
    }
}

// Prints the number of a token, and names.
fn put_front(out: &mut Printed, after: u64, names: &NameTable) {
    write!(out, "{after}");
    put_names(out, names);
}

// Prints them, and what is assumed.
fn put_assumed(
    alloc: Global,
    after: u64,
    names: &NameTable,
    c: &Cond,
    out: &mut Printed,
) -> Result<(), Refusal>
    requires { IsTestedIn (length names.now) (condition_of c.now) }
{
    put_front(out, after, names);
    out.put(" assume ");
    put_text(out, &print_cond(alloc, names, c)?)
}

/// Prints the number of the token behind a block, its nodes, its depth, and its canonical text.
pub fn block_answer(alloc: Global, text: &str, out: &mut Printed) -> Result<(), Refusal> {
    let (groups, text) = two(text)?;
    let groups = natural(groups)?;
    let cut = tokens(alloc, text.as_bytes())?;
    put_block(alloc, groups, text.as_bytes(), &cut, out)
}

// Prints what a block is, by its tokens.
fn put_block(
    alloc: Global,
    groups: u64,
    bytes: &[u8],
    cut: &Tokens,
    out: &mut Printed,
) -> Result<(), Refusal>
    requires { AreTokensOf bytes.now cut.now }
{
    let mut names = NameTable::new(alloc);
    match parse_block(alloc, bytes, cut, 0, groups, &mut names) {
        Ok((block, after)) => put_measured(alloc, after, &names, &block, out),
        Err(error) => Err(told(out, error)),
    }
}

// Prints the number of a token, and a block's nodes, depth and canonical text one level in.
fn put_measured(
    alloc: Global,
    after: u64,
    names: &NameTable,
    block: &Block,
    out: &mut Printed,
) -> Result<(), Refusal>
    requires { IsUsedIn (length names.now) (code_of block.now) }
{
    let (nodes, depth) = (nodes(block), depth(block));
    write!(out, "{after} nodes {nodes} depth {depth} ");
    put_text(out, &print_block(alloc, names, block, 1)?)
}

/// Prints the names of a text.
pub fn names_answer(alloc: Global, text: &str, out: &mut Printed) -> Result<(), Refusal> {
    out.put("names");
    put_names(out, &names(alloc, bytes_of(text)?)?);
    Ok(())
}

/// Prints the first line of a proof, and its size.
pub fn first_answer(alloc: Global, text: &str, out: &mut Printed) -> Result<(), Refusal> {
    let bytes = with_line_feeds(alloc, text)?;
    match read_line(alloc, &bytes) {
        Ok((line, size)) => {
            write!(out, "{line:?} {size}");
            Ok(())
        }
        Err(error) => Err(told(out, error)),
    }
}

// Prints the names of a table.
fn put_names(out: &mut Printed, names: &NameTable) {
    for number in 0..names.len() {
        out.put(" ");
        out.put(names.text(Name(number as u32)));
    }
}
