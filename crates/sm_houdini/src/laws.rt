// What holds of the rounds, as contracts.
ghost use Rattle.sm_houdini.specs.Laws.{ValidIsSearchable, FinalHasNoOwner, SitesAskChosen, KeptIsInductive, DroppedAreRefuted, AskedUnderFewer, ShownInRounds, KeptExpands, SearchIsWritable, CertifiedAreShort, OutcomeIsOne};
ghost use Rattle.sm_houdini.specs.Laws.{ConflictIsLeast};

/// A goal of a plan is final exactly where it isn't one of a site.
pub fn final_has_no_owner()
    ensures { FinalHasNoOwner }
{}

/// What a site asks are the templates that are chosen there, in order, at the stores of the node
/// that asks them.
pub fn sites_ask_chosen()
    ensures { SitesAskChosen }
{}

/// What is kept is inductive: another round drops nothing, and each goal of a site closes.
pub fn kept_is_inductive()
    ensures { KeptIsInductive }
{}

/// Each template that isn't kept was refuted in a round: one of its obligations didn't close, and
/// the next round was without it.
pub fn dropped_are_refuted()
    ensures { DroppedAreRefuted }
{}

/// Of two choices the smaller stands in order in the larger. Then each obligation of its templates
/// under the larger is one under the smaller as well: at the same node, with the same goal, over
/// facts that stand in order among those.
pub fn asked_under_fewer()
    ensures { AskedUnderFewer }
{}

/// Where each template of a choice is shown under it by certificates without exact lines, each is
/// shown so in every round that has them all as well, and dropped there only where the walk of one
/// of its obligations doesn't close.
pub fn shown_in_rounds()
    ensures { ShownInRounds }
{}

/// The plan of what is kept has obligations, where no filling has a hole and the task is small.
pub fn kept_has_obligations()
    ensures { KeptExpands }
{}

/// The plan of a choice can be written with certificates of all that it asks.
pub fn search_is_writable()
    ensures { SearchIsWritable }
{}

/// A task that meets the conditions can be searched, and has few enough names for its lines.
pub fn valid_is_searchable()
    ensures { ValidIsSearchable }
{}

/// Of certificates of all that it asks no line is too long where no number is, and no more than 200
/// names are there.
pub fn certified_are_short()
    ensures { CertifiedAreShort }
{}

/// A search comes to one outcome.
pub fn outcome_is_one()
    ensures { OutcomeIsOne }
{}

/// A conflict is that of the least trial that violates.
pub fn conflict_is_least()
    ensures { ConflictIsLeast }
{}
