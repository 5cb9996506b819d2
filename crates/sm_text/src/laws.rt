// Laws of reading, as contracts.
ghost use Rattle.sm_text.specs.Laws.{DeclaredInOrder, NoFaultInGrammar, OneFirstFault, OneParse, TokensAreCut};
ghost use Rattle.sm_text.specs.parsing.Places.{AreTasks, ArePrograms};

/// A text spells the parts of at most one task, with the same names.
pub fn one_parse()
    ensures { OneParse }
{}

/// The tokens of a text and its first lexical fault are those into which it is cut.
#[tactic(auto, using(crate::proofs::Cut::Exact::tokens_are_cut))]
pub fn tokens_are_cut()
    ensures { TokensAreCut }
{}

/// The declared names of a task are numbered from 0 on, in the order of the text.
#[tactic(auto, using(crate::proofs::Numbering::DeclaredInOrder::declared_in_order))]
pub fn declared_in_order()
    ensures { DeclaredInOrder }
{}

/// A text has at most one first fault.
#[tactic(auto, using(crate::proofs::FirstFault::Unique::one_first_fault))]
pub fn one_first_fault()
    ensures tasks { OneFirstFault AreTasks }
    ensures programs { OneFirstFault ArePrograms }
{}

/// A text in the grammar has no fault.
#[tactic(auto, using(crate::proofs::FirstFault::Faultless::no_fault_in_grammar))]
pub fn no_fault_in_grammar()
    ensures { NoFaultInGrammar }
{}
