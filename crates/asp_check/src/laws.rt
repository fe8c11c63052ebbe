//! Laws of the condition of `check`: each contract is one, and each body is empty.
ghost use Rattle.asp_check.specs.Laws.{ProgramsAreCheckable, TextsAreCheckable};

/// Every program of tokens meets the condition of `check`.
pub fn programs_are_checkable()
    ensures { ProgramsAreCheckable }
{}

/// Every program of a text meets the condition of `check`.
pub fn texts_are_checkable()
    ensures { TextsAreCheckable }
{}
