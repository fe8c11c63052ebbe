//! Laws of the answers of runs: each contract is one, and each body is empty.
ghost use Rattle.asp_top.specs.Laws.{WordsAgree, AnswersExist, RefusalsAreUnique, DoneIsUnique, OneStatus, OneOutput, EnoughSettles};

/// Words that are served ask for the task that the definition of words has for them, and where that refuses a word, the same
/// word is refused or one before it.
pub fn words_agree()
    ensures { WordsAgree }
{}

/// There is an answer to all words and bytes.
pub fn answers_exist()
    ensures { AnswersExist }
{}

/// A refusal is the only answer to its words and bytes, answers of status 0 have one output, and answers that aren't open have one
/// status, so there are never both verdicts, and without a log one output.
pub fn answers_are_unique()
    ensures refusals { RefusalsAreUnique }
    ensures done { DoneIsUnique }
    ensures statuses { OneStatus }
    ensures outputs { OneOutput }
{}

/// Where each search may place as many literals as it can at most, and the history may take all cells that it can, no
/// answer to an accepted text is open.
pub fn enough_settles()
    ensures { EnoughSettles }
{}
