//! Laws of what a search keeps.

ghost use Rattle.asp_search.specs.Laws.{StandAfterAdd, StandAfterSearch, SatisfyAdded, AreCoresOfAdded};

/// The kept clauses stand for the added ones that hold after every `add`, `add_loose` and `next`, so what is found satisfies
/// these, and each core is one of theirs. So do the firm ones for the added firm ones, which alone hold after `begin`.
pub fn kept_clauses_stand_for_the_added()
    ensures after_add { StandAfterAdd }
    ensures after_search { StandAfterSearch }
    ensures found { SatisfyAdded }
    ensures cores { AreCoresOfAdded }
{}
