//! Laws of games that are made of programs: each contract is one, and each body is empty.
ghost use Rattle.asp_ground.specs.Laws.{MovesAreConsistent, TextGamesAreValid};

/// The game of a program that passes all checks and keeps the limits is valid.
pub fn text_games_are_valid()
    ensures { TextGamesAreValid }
{}

/// No move of a level of a program's game has an atom and its strong negation.
pub fn moves_are_consistent()
    ensures { MovesAreConsistent }
{}
