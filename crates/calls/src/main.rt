//! Cases of public calls, most of which no command makes alone: reads a command from each line of
//! its input and prints one line for it.
//!
//! An empty line and a line that begins with `#` are printed as they are. `bad` stands where a
//! command isn't one of those below, or where what a call requires isn't so.
//!
//! Texts, tasks and proofs. Where a call answers an error, its text is printed.
//! - `program TEXT` prints the canonical text of a program, or what isn't well formed in it. `head
//!   TEXT` reads what stands before the lists of a task, and prints the number of the token behind
//!   it, its names, and what is assumed.
//! - `block 0 TEXT` reads a block where that many groups are open, and prints the number of the
//!   token behind it, its nodes and its depth, and its canonical text. `names TEXT` prints the
//!   names of a text.
//! - `fill 1 TEXT` prints the statements of a copy of a task. `sites TEXT` prints how many sites a
//!   task has, and how many templates the first has.
//! - `first TEXT` reads the first line of a proof, where a slash stands for each line feed. `proof
//!   LINES|TASK` prints the verdict on the lines of a proof for a task.
//!
//! Files and jobs.
//! - `file start`, `file append`, `file read` and `file whole` are calls on real files: `file read
//!   NAME 7 4` prints how many of 4 bytes at place 7 were read, and what a piece holds then that
//!   held dashes before. `file write`, `file rename` and `file remove` are those of the system.
//!   `file pipe 8 TEXT` reads a pipe in pieces of 8.
//! - `jobs 2` runs seven jobs with so many workers, and prints what comes, and whether a job began
//!   while there was another thread.
//!
//! Terms of a table. `WrongSort` stands where an argument has the other sort.
//! - `table n a` begins anew, with a number of name 0 and an array of name 1.
//! - `t lit 7` and the like put a term into the table, whose number is printed; the words are those
//!   of a proof file. `len`, `sort`, `get`, `cut` and `copy` are calls of the table; `cut` also
//!   takes the facts from the branch.
//! - `t loop 0 1 5 2 3 0` puts in the value of name 0 after `while (x < y) { x = x + 5; }`, from a
//!   store in which x, of name 0, has the term 2, and y, of name 1, the term 3. `t havoc 3 1 0` puts
//!   in the value that node 3 gives to name 0 of copy 1.
//! - `adopt neg 0, neg 1 / cell` puts the first terms into a copy of the table and the others into
//!   the table itself, and then has the table take what is new in the copy; its numbers here are
//!   printed.
//! - `expr x0 + 3` puts in the term of an expression over `x0`, `x1` and so on, from the start of
//!   each name, and prints its number. `cond x0 <= 3` puts the formula of a condition on the branch,
//!   and prints it.
//!
//! Facts of a branch, and certificates. The words of facts and lines are those of a proof file.
//! - `fact eq 0 1`, `fact or eq 0 1, le 2 3` and the like put a formula on the branch, whose number
//!   is printed. `negate 0` puts the contrary of a fact there, and `show 0` prints a fact.
//! - `line sym 0` and the like ask each theory in turn, and put what the first of them adds on the
//!   branch. `none` stands where none of them adds anything.
//! - `tree split either 0; end clash 1 2; add sym 1; end clash 3 2` asks whether a certificate
//!   closes the branch. Its lines stand in preorder. One that adds facts follows `add`, one that
//!   splits the branch `split`, one that closes it `end`. `wrong 3` names the first line that
//!   doesn't follow, and `deep` stands where too many splits are above a line.
//! - `left 1000`, `right 1000` and `balanced 1000` ask the same of that many splits by `cases 0 0`,
//!   each in the first part of the one above, or in the second, or with as few above each line as
//!   can be. Each branch ends with `close 0`.
//! - `chain 1000` and `sums 1000` put facts on the branch and ask whether a certificate of that
//!   many equations that are chained, or of sums without an atom, closes it. `intern 1000` puts in
//!   that many sums.
//! - `solve 100 eq 0 1` walks over the branches of the facts and the contrary of the formula, in so
//!   many steps: `closed` with the first words of the lines of the certificate, which is checked, or
//!   with their number where they are more than 20; `open` with the facts of the first branch that
//!   stays open; `steps` where they don't suffice; `beyond` where an operation leaves the range.
//!   `exactly 100 eq 0 1` decides exactly what would stay open.
//!
//! Numbers and linear forms. A form is `le -2*0 3*1 1`: what it says of its sum, its parts, each a
//! coefficient and an atom, and its constant. `beyond` stands where an operation leaves the range,
//! with its operands.
//! - `form`, `elim`, `tight`, `combine`, `cancels` and `contradiction` are calls on linear forms,
//!   which stand behind bars.
//! - `decide 1000 eq 2*0 -2*1 -1, le 1*0 0` asks whether whole numbers satisfy forms, in so many
//!   steps: `refuted` with the count of the steps that it took; `solution 0=12 1=7` with a value for
//!   each atom of the forms; `steps` where they don't suffice.
//! - `add`, `sub` and `mul` are those of whole numbers, `none` where the result is none.
#![tactic(auto)]

mod certificate;
mod command;
mod fact;
mod files;
mod form;
mod jobs;
mod printed;
mod refusal;
mod scene;
mod sizes;
mod solving;
mod summary;
mod symbols;
mod tasks;
mod term;
mod texts;
mod word;

use crate::command::answer;
use crate::jobs::{Alone, jobs_answer};
use crate::printed::Printed;
use crate::refusal::Refusal;
use crate::scene::Scene;
use anyhow::Result;
use sm_io::FileShelf;
use sm_syntax::Decls;
use std::io;

fn main(rt: HostRuntime) -> Result<()> {
    let alloc = rt.alloc();
    let mut shelf = FileShelf::new(&rt);
    let no_names = Decls {
        list: Vec::new(alloc),
    };
    let mut scene = Scene::new(alloc, no_names)?;
    for line in rt.lines(alloc) {
        let line = line?;
        let mut out = Printed::new(alloc);
        let answered = match line.strip_prefix("jobs ") {
            Some(word) => {
                let gate = Alone::new(&rt);
                let answered = jobs_answer(&rt, alloc, &gate, word, &mut out);
                out.put(gate.told());
                answered
            }
            None => answer(&rt, &mut shelf, &mut scene, &line, &mut out),
        };
        put_line(&rt, &out, answered)?;
    }
    Ok(())
}

// Prints what a line answers.
fn put_line<R: Print>(rt: &R, out: &Printed, answered: Result<(), Refusal>) -> io::Result<()> {
    match answered {
        Ok(()) | Err(Refusal::Told) => println!(rt; "{out}"),
        Err(refusal) => println!(rt; "{refusal}"),
    }
}
