// Puts the sections of a program's or a task's canonical text at the end of a list of bytes.
ghost use Rattle.std.specs.Prelude.{◌≡◌, ◌<◌, ◌++◌, [], ◌∷◌, length, option_map, OnOk};
ghost use Rattle.sm_syntax.specs.claim.ConflictFree.{Copy};
ghost use Rattle.sm_syntax.specs.trees.Programs.{declared_of, outputs_of, fillings_of};
ghost use Rattle.sm_syntax.specs.trees.Views.{condition_of, code_of};
ghost use Rattle.sm_text.specs.printing.Canonical as canonical;
ghost use Rattle.sm_text.specs.printing.Named.{IsUsedIn, AreDeclaredIn, AreOutputsIn, IsAssumedIn, AreFilledIn};
ghost use Rattle.sm_text.specs.printing.Pieces.{pieces_text};
ghost use Rattle.sm_text.specs.rules.Written.{numbers_of, filling_of};
ghost use Rattle.sm_text.specs.Tasks.{lists_of};

use crate::printing::expressions::{put_cond, put_name};
use crate::printing::statements::{put_block, put_hole};
use sm_syntax::{Block, Cond, Decls, Filling, Fillings, Name, NameTable, Outputs, PerCopy, Sort};
use std::alloc::{AllocError, Global};

/// A declaration, on a line.
fn put_declaration(
    out: &mut Vec<u8>,
    names: &NameTable,
    name: Name,
    sort: Sort,
) -> Result<(), AllocError>
    requires { name.0 < length names.now }
    ensures { OnOk result
        (out.new.items ≡ out.old.items
        ++ pieces_text names.now (canonical.declaration_pieces ((name.0, sort) ∷ []))) }
{
    match sort {
        Sort::Num => out.extend_from_slice(b"var ")?,
        Sort::Arr => out.extend_from_slice(b"array ")?,
    }
    put_name(out, names, name)?;
    out.extend_from_slice(b";\n")
}

/// The declarations, each name on a line of its own.
pub(crate) fn put_declarations(
    out: &mut Vec<u8>,
    names: &NameTable,
    decls: &Decls,
) -> Result<(), AllocError>
    requires { AreDeclaredIn (length names.now) (declared_of decls.now) }
    ensures { OnOk result
        (out.new.items ≡ out.old.items
        ++ pieces_text names.now (canonical.declaration_pieces (declared_of decls.now))) }
{
    for d in &decls.list {
        put_declaration(out, names, d.0, d.1)?;
    }
    Ok(())
}

/// Names after the first of a list.
fn put_more_names(out: &mut Vec<u8>, names: &NameTable, list: &[Name]) -> Result<(), AllocError>
    requires { AreOutputsIn (length names.now) (numbers_of list.now) }
    ensures { OnOk result
        (out.new.items ≡ out.old.items
        ++ pieces_text names.now (canonical.more_names_pieces (numbers_of list.now))) }
{
    for x in list {
        out.extend_from_slice(b", ")?;
        put_name(out, names, *x)?;
    }
    Ok(())
}

/// Names with commas between them.
fn put_names(out: &mut Vec<u8>, names: &NameTable, list: &[Name]) -> Result<(), AllocError>
    requires { AreOutputsIn (length names.now) (numbers_of list.now) }
    ensures { OnOk result
        (out.new.items ≡ out.old.items
        ++ pieces_text names.now (canonical.names_pieces (numbers_of list.now))) }
{
    if let [first, ..] = list {
        put_name(out, names, *first)?;
        put_more_names(out, names, &list[1..])?;
    }
    Ok(())
}

/// The outputs, on one line.
#[tactic(auto, unfolding(crate::specs::printing::Canonical::output_pieces))]
pub(crate) fn put_outputs(
    out: &mut Vec<u8>,
    names: &NameTable,
    outputs: &Outputs,
) -> Result<(), AllocError>
    requires { AreOutputsIn (length names.now) (outputs_of outputs.now) }
    ensures { OnOk result
        (out.new.items ≡ out.old.items
        ++ pieces_text names.now (canonical.output_pieces (outputs_of outputs.now))) }
{
    out.extend_from_slice(b"output ")?;
    put_names(out, names, &outputs.list)?;
    out.extend_from_slice(b";\n")
}

/// The assumption, where there is one, on a line.
#[tactic(auto, unfolding(crate::specs::printing::Canonical::assumption_pieces))]
pub(crate) fn put_assumption(
    out: &mut Vec<u8>,
    names: &NameTable,
    assumed: &Option<Cond>,
) -> Result<(), AllocError>
    requires { IsAssumedIn (length names.now) (option_map condition_of assumed.now) }
    ensures { OnOk result
        (out.new.items ≡ out.old.items
        ++ pieces_text names.now
        (canonical.assumption_pieces (option_map condition_of assumed.now))) }
{
    match assumed {
        Some(c) => {
            out.extend_from_slice(b"assume ")?;
            put_cond(out, names, c)?;
            out.extend_from_slice(b";\n")
        }
        None => Ok(()),
    }
}

/// The shared block.
#[tactic(auto, unfolding(crate::specs::printing::Canonical::shared_pieces))]
pub(crate) fn put_shared(
    alloc: Global,
    out: &mut Vec<u8>,
    names: &NameTable,
    shared: &Block,
) -> Result<(), AllocError>
    requires { IsUsedIn (length names.now) (code_of shared.now) }
    ensures { OnOk result
        (out.new.items ≡ out.old.items
        ++ pieces_text names.now (canonical.shared_pieces (code_of shared.now))) }
{
    out.extend_from_slice(b"shared ")?;
    put_block(alloc, out, names, &[], shared)?;
    out.extend_from_slice(b"\n")
}

/// A filling, on lines.
fn put_filling(
    alloc: Global,
    out: &mut Vec<u8>,
    names: &NameTable,
    f: &Filling,
) -> Result<(), AllocError>
    requires { IsUsedIn (length names.now) (code_of f.now.block) }
    ensures { OnOk result
        (out.new.items ≡ out.old.items
        ++ pieces_text names.now (canonical.filling_pieces (filling_of f.now ∷ []))) }
{
    out.extend_from_slice(b"  ")?;
    put_hole(out, f.hole)?;
    out.extend_from_slice(b" ")?;
    put_block(alloc, out, names, b"  ", &f.block)?;
    out.extend_from_slice(b"\n")
}

/// Fillings, one after the other.
fn put_fillings(
    alloc: Global,
    out: &mut Vec<u8>,
    names: &NameTable,
    fs: &Fillings,
) -> Result<(), AllocError>
    requires { AreFilledIn (length names.now) (fillings_of fs.now) }
    ensures { OnOk result
        (out.new.items ≡ out.old.items
        ++ pieces_text names.now (canonical.filling_pieces (fillings_of fs.now))) }
{
    for f in &fs.list {
        put_filling(alloc, out, names, f)?;
    }
    Ok(())
}

/// A list of fillings that begins with this word.
#[tactic(auto, unfolding(crate::specs::printing::Canonical::list_pieces, crate::specs::printing::Canonical::braces))]
fn put_list(
    alloc: Global,
    out: &mut Vec<u8>,
    names: &NameTable,
    word: &[u8],
    fs: &Fillings,
) -> Result<(), AllocError>
    requires { AreFilledIn (length names.now) (fillings_of fs.now) }
    ensures { OnOk result
        (out.new.items ≡ out.old.items
        ++ word.now ++ pieces_text names.now (canonical.list_pieces (fillings_of fs.now))) }
{
    out.extend_from_slice(word)?;
    out.extend_from_slice(b" {\n")?;
    put_fillings(alloc, out, names, fs)?;
    out.extend_from_slice(b"}\n")
}

/// The lists of the four copies.
#[tactic(auto, unfolding(crate::specs::printing::Canonical::lists_pieces))]
pub(crate) fn put_lists(
    alloc: Global,
    out: &mut Vec<u8>,
    names: &NameTable,
    lists: &PerCopy<Fillings>,
) -> Result<(), AllocError>
    requires { (c : Copy) → AreFilledIn (length names.now) (lists_of lists.now c) }
    ensures { OnOk result (out.new.items ≡ out.old.items
        ++ pieces_text names.now (canonical.lists_pieces (lists_of lists.now))) }
{
    put_list(alloc, out, names, b"base", &lists.base)?;
    put_list(alloc, out, names, b"variant_a", &lists.variant_a)?;
    put_list(alloc, out, names, b"variant_b", &lists.variant_b)?;
    put_list(alloc, out, names, b"candidate", &lists.candidate)
}
