//! What holds of the machine after every list of events: each contract is a law, and each body is empty.
ghost use Rattle.asp_core.specs.Laws.{RunsStaySound, RunsOnlyGrow};

/// After every list of events that may happen the history is legal and within the cells, each member has seen a prefix of it,
/// and each entry is sound.
pub fn runs_stay_sound()
    ensures { RunsStaySound }
{}

/// Further events take nothing away of the history and of what each member has seen.
pub fn runs_only_grow()
    ensures { RunsOnlyGrow }
{}
