use asp_defs::Quant;

/// What a known directive opens.
#[derive(Debug, Clone, Copy, PartialEq, Eq)]
pub enum Directive {
    Level(Quant),
    Constraint,
}

/// Where literals stand.
#[derive(Debug, Clone, Copy, PartialEq, Eq)]
pub enum Side {
    /// In the body of a rule.
    Body,
    /// In the condition of an element of a choice.
    Condition,
}

/// What an atom is for.
#[derive(Debug, Clone, Copy, PartialEq, Eq)]
pub enum Role {
    /// The first of a statement, with no interval so far.
    First,
    /// The first of a statement, with an interval: only a fact has it.
    Wide,
    /// A further one of a disjunction.
    Further,
    /// The atom of an element of a choice.
    Chosen,
    /// A literal.
    Positive(Side),
    /// A literal behind `not`.
    Negative(Side),
}

/// A state of the machine, by what stands before it in the text.
#[derive(Debug, Clone, Copy, PartialEq, Eq)]
pub enum State {
    /// Nothing: a level's directive has to come.
    Start,
    /// A directive or a full stop: a statement may begin.
    Statement,
    /// A sign of a disjunction.
    NextHead,
    /// An atom of a disjunction.
    AfterHead,
    /// An atom with an interval.
    AfterFact,
    /// The lower bound of a choice.
    AfterLower,
    /// The opening brace of a choice.
    FirstElement,
    /// A semicolon of a choice.
    NextElement,
    /// The atom of an element.
    AfterChosen,
    /// The closing brace of a choice.
    AfterChoice,
    /// The upper bound of a choice.
    AfterUpper,
    /// The arrow or the colon before literals.
    FirstLiteral(Side),
    /// A comma between literals.
    NextLiteral(Side),
    /// `not`.
    AfterNot(Side),
    /// The left side of a comparison, which is no name.
    AfterLeft(Side),
    /// An operator.
    AfterOperator(Side),
    /// A whole literal.
    AfterLiteral(Side),
    /// A name that is an atom, begins one, or is the left side of a comparison.
    AfterName(Role),
    /// A minus before the name of an atom.
    AfterMinus(Role),
    /// A minus and a name, which are an atom or begin one.
    AfterNegated(Role),
    /// The opening parenthesis of arguments.
    FirstArgument(Role),
    /// A comma between arguments.
    NextArgument(Role),
    /// A whole argument.
    AfterArgument(Role),
    /// A number among arguments, which may begin an interval.
    AfterNumber(Role),
    /// The sign of an interval.
    AfterDots,
}
