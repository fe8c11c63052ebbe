//! Laws of the texts of sets: each contract is one, and each body is empty.
ghost use Rattle.asp_sets.specs.Laws.{TextBasesAreReadable, TextsAreRead};

/// The sets of a text's program can be read from their texts.
pub fn text_bases_are_readable()
    ensures { TextBasesAreReadable }
{}

/// A set of the first level's atoms of a text's program is read again from its text.
pub fn texts_are_read()
    ensures { TextsAreRead }
{}
