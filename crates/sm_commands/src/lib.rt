//! SafeMerge: checks that a three-way merge of programs is free of conflicts.
//!
//! - `safemerge` does all that the program does, over any shelf and any sink. `check` answers what
//!   the search of a task comes to: `Accepted` for a task that is free of conflicts alone, whose
//!   proof it writes to a file; `Conflict` for one that isn't, with the first trial that shows it; or
//!   `Unknown` with the first goal that stays open. With `--exact` the search decides a branch that
//!   nothing splits over whole numbers, and with `--deeper` inputs beyond the trials are run where it
//!   decides nothing, and a proof is looked for along their runs; with `--why` words stand behind the
//!   answer, which say why; with `--seconds` it may be that the time is over. `verify` prints
//!   `Accepted` exactly where the bytes of a proof's file pass for the task, which is then free of
//!   conflicts, and else the number of the first bad line and the word for what is wrong with it.
//!   `replay` judges one input exactly, `print` puts the canonical text of a task, or of the program
//!   of a copy, `suggest` the first combination of the given fillings that the search accepts, and
//!   `gen` makes a task and answers it. `explain` says for a person why a task is refused, what its
//!   programs are, or what they do from an input. `batch` answers the files that a list names, a line
//!   each, as `check` does. `trim` writes a proof that passes to another file, without the lines that
//!   nobody uses. `help` and `version` say what the program takes and is. Words that no command
//!   takes, bytes that are no task or no input, and faults are answered exactly where they are met.
//! - `one_answer` is the law that two answers to told files, without a fault, are equal where the
//!   words are the same, or ask for the same with another number of workers or another `--cache`,
//!   where they ask for `check` without `--deeper` and `--why`, or for another command but `trim`,
//!   and without `--seconds`.
//! - `Status::number` is the number with which the program ends.
//!
//! The claim is `ConflictFree` of the crate `sm_syntax`. Read `specs/Merges.antt` of the crate
//! `sm_answers` first: what it is for bytes to spell a task that is free of conflicts; then
//! `specs/Headline.antt`: what Accepted and Conflict say of files that are told; and then
//! `specs/HeadlineRead.antt`: what they say of the bytes that were read, on every shelf.
//! `specs/HeadlineBatch.antt` of `sm_replies` has what a line `Accepted` of `batch` says of both.
//!
//! `specs/Top.antt` says what is answered, with `specs/Deeper.antt` and `specs/Why.antt`;
//! `specs/Check.antt`, `specs/Suggest.antt`, `specs/Batch.antt`, `specs/Seconds.antt` and
//! `specs/Gen.antt` of `sm_replies`; `specs/Trim.antt` of `sm_files`; `specs/File.antt`,
//! `specs/Verify.antt` and `specs/Replay.antt` of `sm_answers`; and `specs/Print.antt` and
//! `specs/Explain.antt` of `sm_display`. `specs/ProofFile.antt` of `sm_files` says what `check`
//! writes, and `specs/Words.antt` of `sm_words` what the words ask for.
#![tactic(auto)]

mod checking;
mod deeper;
mod laws;
mod replying;
mod telling;
mod top;
mod why;

pub use laws::one_answer;
pub use sm_answers::Status;
pub use top::safemerge;
