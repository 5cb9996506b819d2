// How lines are spelled and read, as contracts.
ghost use Rattle.sm_proof.specs.SpellingLaws.{ExactBegins, ReadIsSpelled, ReadRefuses, SpelledReadsBack};

/// The text of a line within its fields is read as that line.
#[tactic(auto, using(crate::proofs::SpellingReadsBack::spelled_back))]
pub fn spelled_reads_back()
    ensures { SpelledReadsBack }
{}

/// Bytes that are read as a line are the text of that line, which is within its fields.
pub fn read_is_spelled()
    ensures { ReadIsSpelled }
{}

/// Bytes that are no line are refused as BadLine or as BadNumber.
#[tactic(auto, using(crate::proofs::ReadRefuses::refused))]
pub fn read_refuses()
    ensures { ReadRefuses }
{}

/// Bytes that are read as a line begin with the word of lines `exact` where it is one.
#[tactic(auto, using(crate::proofs::ExactLines::exact_read))]
pub fn exact_begins()
    ensures { ExactBegins }
{}
