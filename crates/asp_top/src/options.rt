//! The options of `solve`.
ghost use Rattle.std.specs.Prelude.{◌≡◌, ◌≤◌, ◌+◌, ◌*◌, ℕ, false, Some, None, List, length, drop, map, option_map, string_bytes};
ghost use Rattle.asp_defs.specs.Words.{NumberValue, Setting, form_of as form_by, next_value as next_by, settings_from, value_of as value_by};
ghost use Rattle.asp_top.specs.Commands.{served_options};
ghost use Rattle.asp_top.specs.Options.{option_of, FitsOption, form_as_defined, FormFits, valued_form, assigned_by, is_set, set_count, with_option, AreOptions, ReadsAs};

use crate::number::number_within;

/// The options that were read, each with its number.
#[derive(Debug, Clone, Copy)]
pub(crate) struct Options {
    /// How many literals each search may place.
    pub(crate) budget: Option<u64>,
    /// How many cells the history may take.
    pub(crate) cells: Option<u64>,
}

/// An option.
#[derive(Debug, Clone, Copy)]
enum OptionWord {
    Budget,
    Cells,
}

/// What a word is by itself.
#[derive(Debug, Clone, Copy)]
enum Form {
    /// An option with its number.
    Read(OptionWord, u64),
    /// An option whose number is the next word.
    Open(OptionWord),
    /// Nothing that can be read.
    Unread,
}

impl Options {
    fn has(self, option: OptionWord) -> bool
        ensures { result ≡ is_set self option }
    {
        match option {
            OptionWord::Budget => self.budget.is_some(),
            OptionWord::Cells => self.cells.is_some(),
        }
    }

    fn with(self, option: OptionWord, value: u64) -> Options
        ensures { result ≡ with_option self option value }
    {
        match option {
            OptionWord::Budget => Options {
                budget: Some(value),
                ..self
            },
            OptionWord::Cells => Options {
                cells: Some(value),
                ..self
            },
        }
    }
}

/// The number that the bytes are, if they are one in the option's range.
fn value_of(option: OptionWord, bytes: &[u8]) -> Option<u64>
    ensures value { option_map NumberValue result ≡ value_by (option_of option) bytes.now }
    ensures within { (value : ℕ) → result ≡ Some value → FitsOption option value }
{
    match option {
        OptionWord::Budget => number_within(1, 1_000_000_000_000_000_000, bytes),
        OptionWord::Cells => number_within(1, 500_000_000, bytes),
    }
}

/// The number that the option takes from the next word, which doesn't begin with a minus.
fn next_value(option: OptionWord, word: &[u8]) -> Option<u64>
    ensures value { option_map NumberValue result ≡ next_by (option_of option) word.now }
    ensures within { (value : ℕ) → result ≡ Some value → FitsOption option value }
{
    match word {
        [] => None,
        [first, ..] => {
            if *first == b'-' {
                return None;
            }
            value_of(option, word)
        }
    }
}

/// The option with the number behind the first `count` bytes of the word.
fn assigned(option: OptionWord, word: &[u8], count: usize) -> Form
    requires { count ≤ length word.now }
    ensures form { form_as_defined result ≡ valued_form (option_of option) (value_by (option_of option) (drop count word.now)) }
    ensures fits { FormFits result }
{
    match value_of(option, &word[count..]) {
        Some(value) => Form::Read(option, value),
        None => Form::Unread,
    }
}

/// What the bytes are where they aren't an option's word alone.
fn assigned_form(word: &[u8]) -> Form
    ensures form { form_as_defined result ≡ assigned_by word.now }
    ensures fits { FormFits result }
{
    if word.starts_with(b"--budget=") {
        return assigned(OptionWord::Budget, word, 9);
    }
    if word.starts_with(b"--cells=") {
        return assigned(OptionWord::Cells, word, 8);
    }
    Form::Unread
}

/// What the word is by itself.
fn form_of(word: &str) -> Form
    ensures form { form_as_defined result ≡ form_by served_options word.now }
    ensures fits { FormFits result }
{
    match word {
        "--budget" => Form::Open(OptionWord::Budget),
        "--cells" => Form::Open(OptionWord::Cells),
        _ => assigned_form(word.as_bytes()),
    }
}

/// The options that the words are, behind those that were read before. The first of the words has that number from 1.
///
/// # Errors
///
/// The number of the first word that can't be read, where a missing word counts too.
#[cycle(reading)]
pub(crate) fn read_options(words: &[String], number: u32, options: Options) -> Result<Options, u32>
    requires { number ≤ 2 + 2 * set_count options }
    ensures { (settings : List Setting) → AreOptions settings options
        → ReadsAs result (settings_from served_options number settings None (map string_bytes words.now)) }
{
    match words {
        [] => Ok(options),
        [word, further @ ..] => match form_of(word.as_str()) {
            Form::Unread => Err(number),
            Form::Read(option, value) => {
                if options.has(option) {
                    return Err(number);
                }
                read_options(further, number + 1, options.with(option, value))
            }
            Form::Open(option) => {
                if options.has(option) {
                    return Err(number);
                }
                read_value(further, number + 1, options, option)
            }
        },
    }
}

/// The options that the words are, where the first is the number of an option.
///
/// # Errors
///
/// The number of the first word that can't be read, where a missing word counts too.
#[cycle(reading)]
fn read_value(
    words: &[String],
    number: u32,
    options: Options,
    option: OptionWord,
) -> Result<Options, u32>
    requires near { number ≤ 3 + 2 * set_count options }
    requires fresh { is_set options option ≡ false }
    ensures { (settings : List Setting) → AreOptions settings options
        → ReadsAs result (settings_from served_options number settings (Some (option_of option)) (map string_bytes words.now)) }
{
    match words {
        [] => Err(number),
        [word, further @ ..] => match next_value(option, word.as_bytes()) {
            Some(value) => read_options(further, number + 1, options.with(option, value)),
            None => Err(number),
        },
    }
}
