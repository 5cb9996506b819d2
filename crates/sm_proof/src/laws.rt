// What passing files show, as contracts.
ghost use Rattle.sm_proof.specs.Cases.{CasesComeOut, FilesAreLines};
ghost use Rattle.sm_proof.specs.Laws.{PassIsFree, PrefixesFail};

/// A file that passes for a task whose names stand as they are declared makes the task free of
/// conflicts, whoever wrote the file.
pub fn pass_is_free()
    ensures { PassIsFree }
{}

/// A file that begins one that passes, and isn't all of it, doesn't pass.
pub fn prefixes_fail()
    ensures { PrefixesFail }
{}

/// Small files come out as they were worked by hand, on lines that were read.
pub fn cases_come_out()
    ensures lines { FilesAreLines }
    ensures cases { CasesComeOut }
{}
