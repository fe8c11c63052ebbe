//! A law of what is printed: its contract states it, and its body is empty.
ghost use Rattle.asp_print.specs.Laws.{CanonicalTextIsAText};

/// The canonical text of a program that has a text is a text of that program.
pub fn canonical_text_is_a_text()
    ensures { CanonicalTextIsAText }
{}
