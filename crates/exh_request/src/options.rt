//! What the options of a command say.

ghost use Rattle.std.specs.Prelude.{◌≡◌, ◌≤◌, map, IfOk, IfSome};
ghost use Rattle.exh_request.specs.Line.{used_option};
ghost use Rattle.exh_request.specs.Options.{format_of_word, from_word, given_asked, keyer_of_word, number_asked, number_given, options_asked, when_by};
ghost use Rattle.exh_request.specs.Uses.{is_used, value_given};
ghost use Rattle.exh_request.specs.declared.command_option.CommandOption.TheVariants.{Format, From, Keyer, New, Replace};

use crate::{CommandOption, Form, GivenSettings, Line, PutWhen, WrongCause};
use exh_keyer::AnyKeyer;
use exh_page::{CAP_LIMIT, keyer_named};
use exh_pair_text::{PairFormat, parse_u32};
use exh_prefix::WARD_BITS_LIMIT;

/// How many seconds another process is waited for, where no option says it.
pub const USUAL_WAIT: u32 = 5;

/// The most seconds that another process is waited for.
pub const WAIT_LIMIT: u32 = 86_400;

/// What the options of a command say; what those say that it doesn't take is as where they aren't used.
#[derive(Clone, Copy)]
pub(crate) struct Options {
    pub(crate) wait: u32,
    pub(crate) form: Form,
    pub(crate) when: PutWhen,
    /// Whether the keys stand on standard input.
    pub(crate) is_from: bool,
    pub(crate) given: GivenSettings,
    pub(crate) format: PairFormat,
    /// Whether a record stands before the others that names the columns.
    pub(crate) has_header: bool,
    /// Whether a file is made where none is.
    pub(crate) is_create: bool,
    /// Whether all pairs are put in or none.
    pub(crate) is_atomic: bool,
    /// Whether pairs stand without a first line and a last one.
    pub(crate) is_bare: bool,
    /// Whether numbers are printed as JSON.
    pub(crate) is_json: bool,
}

impl Options {
    /// What the options of a line say, or the first that is wrong.
    pub(crate) fn of(line: &Line<'_>) -> Result<Options, WrongCause>
        ensures { result ≡ options_asked (map used_option line.now.uses.items) }
    {
        if let Some(option) = line.repeated() {
            return Err(WrongCause::Twice(option));
        }
        let wait = number_of(line, CommandOption::Wait, USUAL_WAIT, 0, WAIT_LIMIT)?;
        let given = given_of(line)?;
        let is_from = from_of(line)?;
        let when = when_of(line)?;
        let format = format_of(line)?;
        let form = Form {
            is_hex: line.uses(CommandOption::Hex),
            is_raw: line.uses(CommandOption::Raw),
        };
        Ok(Options {
            wait,
            form,
            when,
            is_from,
            given,
            format,
            has_header: line.uses(CommandOption::Header),
            is_create: line.uses(CommandOption::Create),
            is_atomic: line.uses(CommandOption::Atomic),
            is_bare: line.uses(CommandOption::Bare),
            is_json: line.uses(CommandOption::Json),
        })
    }
}

// The settings that are named.
fn given_of(line: &Line<'_>) -> Result<GivenSettings, WrongCause>
    ensures { result ≡ given_asked (map used_option line.now.uses.items) }
{
    let cap = number_in(line, CommandOption::Cap, 1, CAP_LIMIT as u32)?;
    let wards = number_in(line, CommandOption::Wards, 0, u32::from(WARD_BITS_LIMIT))?;
    let keyer = keyer_of(line)?;
    Ok(GivenSettings {
        cap: cap.map(|cap| cap as u8),
        ward_bits: wards.map(|wards| wards as u8),
        keyer,
    })
}

// The number that an option gives, from the least to the greatest, or the usual one where it isn't used.
fn number_of(
    line: &Line<'_>,
    option: CommandOption,
    usual: u32,
    least: u32,
    greatest: u32,
) -> Result<u32, WrongCause>
    ensures number { result ≡ number_asked option usual least greatest (map used_option line.now.uses.items) }
{
    match number_in(line, option, least, greatest)? {
        Some(number) => Ok(number),
        None => Ok(usual),
    }
}

// The same, `None` where it isn't used.
fn number_in(
    line: &Line<'_>,
    option: CommandOption,
    least: u32,
    greatest: u32,
) -> Result<Option<u32>, WrongCause>
    ensures number { result ≡ number_given option least greatest (map used_option line.now.uses.items) }
    ensures greatest { IfOk result (λ given. IfSome given (λ number. number ≤ greatest)) }
{
    let Some(word) = line.value(option) else {
        return Ok(None);
    };
    match parse_u32(word) {
        Some(number) if least <= number && number <= greatest => Ok(Some(number)),
        _ => Err(WrongCause::BadValue(option)),
    }
}

// The keyer that is named.
fn keyer_of(line: &Line<'_>) -> Result<Option<AnyKeyer>, WrongCause>
    ensures { result ≡ keyer_of_word (value_given Keyer (map used_option line.now.uses.items)) }
{
    let Some(word) = line.value(CommandOption::Keyer) else {
        return Ok(None);
    };
    match keyer_named(word) {
        Some(keyer) => Ok(Some(keyer)),
        None => Err(WrongCause::BadValue(CommandOption::Keyer)),
    }
}

// The format of pairs.
fn format_of(line: &Line<'_>) -> Result<PairFormat, WrongCause>
    ensures { result ≡ format_of_word (value_given Format (map used_option line.now.uses.items)) }
{
    let Some(word) = line.value(CommandOption::Format) else {
        return Ok(PairFormat::Words);
    };
    PairFormat::named(word).ok_or(WrongCause::BadValue(CommandOption::Format))
}

// Whether the keys stand on standard input.
fn from_of(line: &Line<'_>) -> Result<bool, WrongCause>
    ensures { result ≡ from_word (value_given From (map used_option line.now.uses.items)) }
{
    match line.value(CommandOption::From) {
        None => Ok(false),
        Some(b"-") => Ok(true),
        Some(_) => Err(WrongCause::BadValue(CommandOption::From)),
    }
}

// Where a put is done.
fn when_of(line: &Line<'_>) -> Result<PutWhen, WrongCause>
    ensures { result ≡ when_by (is_used New (map used_option line.now.uses.items)) (is_used Replace (map used_option line.now.uses.items)) }
{
    match (
        line.uses(CommandOption::New),
        line.uses(CommandOption::Replace),
    ) {
        (false, false) => Ok(PutWhen::Always),
        (true, false) => Ok(PutWhen::New),
        (false, true) => Ok(PutWhen::There),
        (true, true) => Err(WrongCause::NewAndReplace),
    }
}
