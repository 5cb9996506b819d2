// Commands, by their first words.
use crate::certificate::{line_answer, tree_answer};
use crate::fact::{fact_answer, negate_answer, show_answer};
use crate::files::file_answer;
use crate::form::{decide_answer, form_answer};
use crate::printed::Printed;
use crate::refusal::Refusal;
use crate::scene::{Scene, read_names};
use crate::sizes::sized_answer;
use crate::solving::solve_answer;
use crate::symbols::{condition_answer, expression_answer};
use crate::tasks::{fill_answer, proof_answer, sites_answer};
use crate::term::{adopt_answer, get_answer, sort_answer, term_answer};
use crate::texts::{block_answer, first_answer, head_answer, names_answer, program_answer};
use crate::word::{natural, two, whole};
use sm_io::FileShelf;
use sm_num::{add, mul, sub};
use std::alloc::Global;
use std::rt::Files;

/// Prints a line that is no command as it is, and else what the command answers.
pub fn answer<R: Files + AllocGlobal>(
    rt: &R,
    shelf: &mut FileShelf<'_, R>,
    scene: &mut Scene,
    line: &str,
    out: &mut Printed,
) -> Result<(), Refusal> {
    if line.is_empty() || line.starts_with('#') {
        out.put(line);
        return Ok(());
    }
    let (word, text) = line.split_once(' ').unwrap_or((line, ""));
    match word {
        "file" => file_answer(rt, shelf, text, out),
        _ => text_answer(rt.alloc(), scene, word, text, out),
    }
}

// Prints what a command on a text answers.
fn text_answer(
    alloc: Global,
    scene: &mut Scene,
    word: &str,
    text: &str,
    out: &mut Printed,
) -> Result<(), Refusal> {
    match word {
        "program" => program_answer(alloc, text, out),
        "head" => head_answer(alloc, text, out),
        "block" => block_answer(alloc, text, out),
        "names" => names_answer(alloc, text, out),
        "first" => first_answer(alloc, text, out),
        "fill" => fill_answer(alloc, text, out),
        "sites" => sites_answer(alloc, text, out),
        "proof" => proof_answer(alloc, text, out),
        _ => table_answer(alloc, scene, word, text, out),
    }
}

// Prints what a command on the table answers.
fn table_answer(
    alloc: Global,
    scene: &mut Scene,
    word: &str,
    text: &str,
    out: &mut Printed,
) -> Result<(), Refusal> {
    match word {
        "table" => begin_anew(alloc, scene, text, out),
        "copy" => {
            scene.copy_table(alloc)?;
            put_len(scene, out);
            Ok(())
        }
        "cut" => {
            scene.cut(natural(text)?)?;
            put_len(scene, out);
            Ok(())
        }
        "len" => {
            put_len(scene, out);
            Ok(())
        }
        "t" => term_answer(alloc, scene, text, out),
        "get" => get_answer(scene, text, out),
        "sort" => sort_answer(scene, text, out),
        "adopt" => adopt_answer(alloc, scene, text, out),
        "expr" => expression_answer(alloc, scene, text, out),
        "cond" => condition_answer(alloc, scene, text, out),
        _ => branch_answer(alloc, scene, word, text, out),
    }
}

// Begins anew, with names by their sorts.
fn begin_anew(
    alloc: Global,
    scene: &mut Scene,
    sorts: &str,
    out: &mut Printed,
) -> Result<(), Refusal> {
    *scene = Scene::new(alloc, read_names(alloc, sorts)?)?;
    out.put("table");
    Ok(())
}

// Prints how many terms the table has.
fn put_len(scene: &Scene, out: &mut Printed) {
    write!(out, "{}", scene.table.len());
}

// Prints what a command on the branch answers.
fn branch_answer(
    alloc: Global,
    scene: &mut Scene,
    word: &str,
    text: &str,
    out: &mut Printed,
) -> Result<(), Refusal> {
    match word {
        "fact" => fact_answer(alloc, scene, text, out),
        "negate" => negate_answer(alloc, scene, text, out),
        "show" => show_answer(scene, text, out),
        "line" => line_answer(alloc, scene, text, out),
        "tree" => tree_answer(alloc, scene, text, out),
        "solve" => solve_answer(alloc, scene, text, false, out),
        "exactly" => solve_answer(alloc, scene, text, true, out),
        "intern" | "chain" | "sums" | "balanced" | "left" | "right" => {
            sized_answer(alloc, scene, word, text, out)
        }
        _ => number_answer(alloc, word, text, out),
    }
}

// Prints what a command on numbers or forms answers.
fn number_answer(alloc: Global, word: &str, text: &str, out: &mut Printed) -> Result<(), Refusal> {
    match word {
        "decide" => decide_answer(alloc, text, out),
        "add" | "sub" | "mul" => put_computed(out, word, text),
        _ => form_answer(alloc, word, text, out),
    }
}

// Prints what an operation gives of two numbers, `none` where that lies outside 128 bits.
fn put_computed(out: &mut Printed, word: &str, text: &str) -> Result<(), Refusal> {
    let (a, b) = two(text)?;
    let (a, b) = (whole(a)?, whole(b)?);
    let z = match word {
        "add" => add(a, b),
        "sub" => sub(a, b),
        _ => mul(a, b),
    };
    match z {
        Some(z) => write!(out, "{z}"),
        None => out.put("none"),
    }
    Ok(())
}
