//! The words of a command, parted into places and options.
ghost use Rattle.std.specs.Prelude.{◌≡◌, map, option_map, false, Ok, IfOk, IfErr, OnOk, count_by, nat_lt};
ghost use Rattle.exh_request.specs.Causes.{IsCauseOf};
ghost use Rattle.exh_request.specs.Line.{after_word, ends_options, free_word, line_asked, line_text, met_word, named_option, split_at_equals, used_option, with_last};
ghost use Rattle.exh_request.specs.Uses.{is_of, is_used, repeated, value_given};

use crate::cause_or_memory::CauseOrMemory;
use crate::{CommandOption, EverydayCommand, WrongCause};
use std::alloc::{AllocError, Global};

/// An option as the words use it: with its value, which is empty for a flag.
#[derive(Clone, Copy)]
pub struct Use<'w> {
    pub option: CommandOption,
    pub value: &'w [u8],
}

/// A word that stands at a place, and whether it stands behind `--`.
#[derive(Clone, Copy)]
pub struct Placed<'w> {
    pub word: &'w [u8],
    pub is_behind: bool,
}

/// The words behind a command: those that stand at its places, and the options that are used, each in its order.
#[derive(Drop)]
pub struct Line<'w> {
    pub places: Vec<Placed<'w>>,
    pub uses: Vec<Use<'w>>,
}

// How far words are read.
#[derive(Clone, Copy)]
enum Reading {
    // Between two of them.
    Between,
    // Behind an option whose value comes next.
    Wanting(CommandOption),
    // Behind `--`.
    Ended,
}

// What a word is.
#[derive(Clone, Copy)]
enum Met<'w> {
    // What ends the options, or an option whose value comes next.
    Nothing,
    Place(Placed<'w>),
    Use(Use<'w>),
}

impl<'w> Line<'w> {
    /// The words behind a command, parted. `NoValue`: the last is an option without its value.
    pub fn read(
        alloc: Global,
        command: EverydayCommand,
        words: &'w [Vec<u8>],
    ) -> Result<Line<'w>, CauseOrMemory>
        ensures ok { IfOk result (λ line. line_asked command (map (λ word. word.items) words.now) ≡ Ok (line_text line)) }
        ensures wrong { IfErr result (IsCauseOf (line_asked command (map (λ word. word.items) words.now))) }
    {
        let mut line = Line {
            places: Vec::new(alloc),
            uses: Vec::new(alloc),
        };
        let mut reading = Reading::Between;
        for word in words {
            let (next, met) = after_word(command, reading, word.as_slice());
            line.add(met)?;
            reading = next;
        }
        match reading {
            Reading::Wanting(option) => Err(CauseOrMemory::Wrong(WrongCause::NoValue(option))),
            Reading::Between | Reading::Ended => Ok(line),
        }
    }

    // Adds what a word is behind the words before it.
    fn add(&mut self, met: Met<'w>) -> Result<(), AllocError>
        ensures { OnOk result (line_text self.new ≡ with_last (met_word met.entry) (line_text self.old)) }
    {
        match met {
            Met::Nothing => {}
            Met::Place(one) => self.places.push(one)?,
            Met::Use(one) => self.uses.push(one)?,
        }
        Ok(())
    }

    /// The value of an option, `None` where it isn't used.
    pub fn value(&self, option: CommandOption) -> Option<&'w [u8]>
        ensures { option_map (λ value. value.now) result ≡ value_given option (map used_option self.now.uses.items) }
    {
        value_in(self.uses.as_slice(), option)
    }

    /// Whether an option is used.
    pub fn uses(&self, option: CommandOption) -> bool
        ensures { result ≡ is_used option (map used_option self.now.uses.items) }
    {
        self.value(option).is_some()
    }

    /// The first option that is used twice, if one is.
    pub fn repeated(&self) -> Option<CommandOption>
        ensures { result ≡ repeated (map used_option self.now.uses.items) }
    {
        repeated_in(self.uses.as_slice())
    }
}

// The value of the first of these that is of an option.
fn value_in<'w>(uses: &[Use<'w>], option: CommandOption) -> Option<&'w [u8]>
    ensures { option_map (λ value. value.now) result ≡ value_given option (map used_option uses.now) }
{
    for one in uses {
        if one.option.is(option) {
            return Some(one.value);
        }
    }
    None
}

// The first option that is twice among these.
fn repeated_in(uses: &[Use<'_>]) -> Option<CommandOption>
    ensures { result ≡ repeated (map used_option uses.now) }
{
    for one in uses {
        if is_repeated(uses, one.option) {
            return Some(one.option);
        }
    }
    None
}

// Whether more than one of these is of an option.
fn is_repeated(uses: &[Use<'_>], option: CommandOption) -> bool
    ensures { result ≡ nat_lt 1 (count_by (is_of option) (map used_option uses.now)) }
{
    count_in(uses, option) > 1
}

// How many of these are of an option.
fn count_in(uses: &[Use<'_>], option: CommandOption) -> usize
    ensures { result ≡ count_by (is_of option) (map used_option uses.now) }
{
    uses.iter().filter(|one| one.option.is(option)).count()
}

// How far words are read behind this one, and what it is.
fn after_word<'w>(command: EverydayCommand, reading: Reading, word: &'w [u8]) -> (Reading, Met<'w>)
    ensures { (result.0, met_word result.1) ≡ after_word command reading word.now }
{
    match reading {
        Reading::Ended => (
            Reading::Ended,
            Met::Place(Placed {
                word,
                is_behind: true,
            }),
        ),
        Reading::Wanting(option) => (
            Reading::Between,
            Met::Use(Use {
                option,
                value: word,
            }),
        ),
        Reading::Between if is_end(word) => (Reading::Ended, Met::Nothing),
        Reading::Between => after_free_word(command, word),
    }
}

// Whether a word ends the options.
fn is_end(word: &[u8]) -> bool
    ensures { result ≡ ends_options word.now }
{
    matches!(word, b"--")
}

// The same, of a word before `--` that is no option's value.
fn after_free_word<'w>(command: EverydayCommand, word: &'w [u8]) -> (Reading, Met<'w>)
    ensures { (result.0, met_word result.1) ≡ free_word command word.now }
{
    let (name, value) = split_at_equals(word);
    match option_of(command, name) {
        Some(option) => match (option.has_value(), value) {
            (true, Some(value)) => (Reading::Between, Met::Use(Use { option, value })),
            (true, None) => (Reading::Wanting(option), Met::Nothing),
            (false, None) => (Reading::Between, Met::Use(Use { option, value: b"" })),
            (false, Some(_)) => (Reading::Between, Met::Place(at_place(word))),
        },
        None => (Reading::Between, Met::Place(at_place(word))),
    }
}

// A word before `--` that stands at a place.
fn at_place<'w>(word: &'w [u8]) -> Placed<'w>
    ensures word { result.word.now ≡ word.now }
    ensures behind { result.is_behind ≡ false }
{
    Placed {
        word,
        is_behind: false,
    }
}

// The option of a command that a word names, with its two dashes.
fn option_of(command: EverydayCommand, word: &[u8]) -> Option<CommandOption>
    ensures { result ≡ named_option command word.now }
{
    let option = CommandOption::named(word.strip_prefix(b"--")?)?;
    if command.takes(option) {
        Some(option)
    } else {
        None
    }
}

// The bytes of a word before its first `=`, and those behind it, where it has one.
fn split_at_equals(word: &[u8]) -> (&[u8], Option<&[u8]>)
    ensures { (result.0.now, option_map (λ value. value.now) result.1) ≡ split_at_equals word.now }
{
    match word.iter().position(|byte| *byte == b'=') {
        Some(at) => (&word[..at], Some(&word[at + 1..])),
        None => (word, None),
    }
}
