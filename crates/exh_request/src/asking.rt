//! The request that words ask for.
ghost use Rattle.std.specs.Prelude.{◌≡◌, is_some, map, option_map, IfOk, IfErr};
ghost use Rattle.exh_request.specs.Causes.{IsCauseOf};
ghost use Rattle.exh_request.specs.Line.{placed_word, used_option};
ghost use Rattle.exh_request.specs.Request.{IsAnswered, action_asked, action_text, ask_for_help, backup_asked, called, compact_asked, create_asked, export_asked, help_of, import_asked, import_of, is_help, keys_asked, keys_text, names_wrong, new_value_asked, put_asked, put_of, request_behind, request_text, salvage_asked, several_asked, stats_asked, swap_asked, swap_of, text_asked, texts_asked, texts_text, words_of};

use crate::argument::{key_of, path_of, value_of};
use crate::options::Options;
use crate::{
    Action, CauseOrMemory, CommandOption, EverydayCommand, GivenTexts, ImportWords, Keys, Line,
    NewValue, Place, Placed, Request, RequestFault, WrongCause, WrongRequest, is_word,
};
use exh_page::Key;
use exh_pair_text::PairFormat;
use std::alloc::Global;

/// The request that the words of a command line ask for, of which the first is the program's name: `None` where they call no
/// everyday command, or ask for help.
///
/// # Errors
///
/// `RequestFault::Wrong` with what is wrong with the words. `RequestFault::Memory` may come at any words of an everyday
/// command.
pub fn request_of<'w>(
    alloc: Global,
    words: &'w [Vec<u8>],
) -> Option<Result<Request<'w>, RequestFault>>
    ensures { IsAnswered (called (map (λ word. word.items) words.now)) result }
{
    let [_, command, own @ ..] = words else {
        return None;
    };
    let command = EverydayCommand::named(command)?;
    if ask_for_help(own) {
        return None;
    }
    Some(match request_by(alloc, command, own) {
        Ok(request) => Ok(request),
        Err(CauseOrMemory::Memory) => Err(RequestFault::Memory),
        Err(CauseOrMemory::Wrong(cause)) => {
            Err(RequestFault::Wrong(WrongRequest { command, cause }))
        }
    })
}

/// The everyday command of which the words ask for help, by `--help` or `-h` before a `--`; `None` where they don't.
pub fn help_asked(words: &[Vec<u8>]) -> Option<EverydayCommand>
    ensures { result ≡ help_of (map (λ word. word.items) words.now) }
{
    let [_, command, own @ ..] = words else {
        return None;
    };
    let command = EverydayCommand::named(command)?;
    if ask_for_help(own) {
        Some(command)
    } else {
        None
    }
}

// Whether words behind a command ask for help.
fn ask_for_help(words: &[Vec<u8>]) -> bool
    ensures { result ≡ ask_for_help (map (λ word. word.items) words.now) }
{
    for word in words {
        if is_word(word.as_slice(), "--") {
            return false;
        }
        if is_help(word.as_slice()) {
            return true;
        }
    }
    false
}

// Whether a word asks for help.
fn is_help(word: &[u8]) -> bool
    ensures { result ≡ is_help word.now }
{
    is_word(word, "--help") || is_word(word, "-h")
}

// The request of a command by the words behind it.
#[tactic(auto, using(crate::proofs::Causes::first_wrong, crate::proofs::Causes::wrong_behind, crate::proofs::Causes::then_is), unfolding(crate::specs::Request::request_behind))]
fn request_by<'w>(
    alloc: Global,
    command: EverydayCommand,
    words: &'w [Vec<u8>],
) -> Result<Request<'w>, CauseOrMemory>
    ensures ok { IfOk result (λ request. request_behind command (map (λ word. word.items) words.now) ≡ Ok (request_text request)) }
    ensures wrong { IfErr result (IsCauseOf (request_behind command (map (λ word. word.items) words.now))) }
{
    let line = Line::read(alloc, command, words)?;
    let options = Options::of(&line)?;
    let [path, places @ ..] = line.places.as_slice() else {
        return Err(CauseOrMemory::Wrong(WrongCause::Missing(Place::Path)));
    };
    let path = path_of(path.word, Place::Path)?;
    let texts = texts_of(&line)?;
    let action = action_of(alloc, command, places, &options, &texts)?;
    Ok(Request {
        path,
        action,
        wait: u64::from(options.wait),
        form: options.form,
    })
}

// The texts that options give.
#[tactic(auto, using(crate::proofs::Causes::first_wrong, crate::proofs::Causes::wrong_behind, crate::proofs::Causes::then_is))]
fn texts_of<'w>(line: &Line<'w>) -> Result<GivenTexts<'w>, CauseOrMemory>
    ensures ok { IfOk result (λ texts. texts_asked (map used_option line.now.uses.items) ≡ Ok (texts_text texts)) }
    ensures wrong { IfErr result (IsCauseOf (texts_asked (map used_option line.now.uses.items))) }
{
    let rejects = text_of(CommandOption::Rejects, line.value(CommandOption::Rejects))?;
    let key = text_of(CommandOption::Key, line.value(CommandOption::Key))?;
    let value = text_of(CommandOption::Value, line.value(CommandOption::Value))?;
    Ok(GivenTexts {
        rejects,
        key,
        value,
    })
}

// The text that is an option's value.
fn text_of(option: CommandOption, word: Option<&[u8]>) -> Result<Option<&str>, WrongCause>
    ensures ok { IfOk result (λ text. text_asked option (option_map (λ word. word.now) word.entry) ≡ Ok (option_map (λ text. text.now) text)) }
    ensures wrong { IfErr result (λ cause. text_asked option (option_map (λ word. word.now) word.entry) ≡ Err cause) }
{
    let Some(word) = word else {
        return Ok(None);
    };
    match path_of(word, Place::Path) {
        Ok(text) => Ok(Some(text)),
        Err(_) => Err(WrongCause::BadValue(option)),
    }
}

// What a command does, by the texts that options give, and the words behind its path.
fn action_of<'w>(
    alloc: Global,
    command: EverydayCommand,
    places: &[Placed<'w>],
    options: &Options,
    texts: &GivenTexts<'w>,
) -> Result<Action<'w>, CauseOrMemory>
    ensures ok { IfOk result (λ done. action_asked command options.now (texts_text texts.now) (map placed_word places.now) ≡ Ok (action_text done)) }
    ensures wrong { IfErr result (IsCauseOf (action_asked command options.now (texts_text texts.now) (map placed_word places.now))) }
{
    match command {
        EverydayCommand::Create => create(places, options),
        EverydayCommand::Get => Ok(Action::Get(keys(alloc, places, options)?)),
        EverydayCommand::Put => put(alloc, places, options),
        EverydayCommand::Del => Ok(Action::Del(keys(alloc, places, options)?)),
        EverydayCommand::Swap => swap(alloc, places, options.form.is_hex),
        EverydayCommand::Backup => backup(places),
        EverydayCommand::Import => import(places, options, texts),
        EverydayCommand::Export => export(places, options),
        EverydayCommand::Compact => compact(places, options),
        EverydayCommand::Stats => stats(places, options),
        EverydayCommand::Salvage => salvage(places, options),
    }
}

fn create<'w>(places: &[Placed<'w>], options: &Options) -> Result<Action<'w>, CauseOrMemory>
    ensures ok { IfOk result (λ done. create_asked options.now (map placed_word places.now) ≡ Ok (action_text done)) }
    ensures wrong { IfErr result (IsCauseOf (create_asked options.now (map placed_word places.now))) }
{
    match places {
        [] => Ok(Action::Create(options.given.of_new())),
        _ => Err(CauseOrMemory::Wrong(WrongCause::TooMany)),
    }
}

fn backup<'w>(places: &[Placed<'w>]) -> Result<Action<'w>, CauseOrMemory>
    ensures ok { IfOk result (λ done. backup_asked (map placed_word places.now) ≡ Ok (action_text done)) }
    ensures wrong { IfErr result (IsCauseOf (backup_asked (map placed_word places.now))) }
{
    match places {
        [] => Err(CauseOrMemory::Wrong(WrongCause::Missing(Place::NewPath))),
        [new] => Ok(Action::Backup {
            new: path_of(new.word, Place::NewPath)?,
        }),
        _ => Err(CauseOrMemory::Wrong(WrongCause::TooMany)),
    }
}

fn import<'w>(
    places: &[Placed<'w>],
    options: &Options,
    texts: &GivenTexts<'w>,
) -> Result<Action<'w>, CauseOrMemory>
    ensures ok { IfOk result (λ done. import_asked options.now (texts_text texts.now) (map placed_word places.now) ≡ Ok (action_text done)) }
    ensures wrong { IfErr result (IsCauseOf (import_asked options.now (texts_text texts.now) (map placed_word places.now))) }
{
    match places {
        [] => import_of(options, texts),
        _ => Err(CauseOrMemory::Wrong(WrongCause::TooMany)),
    }
}

// Settings are those of a file that is made.
fn import_of<'w>(options: &Options, texts: &GivenTexts<'w>) -> Result<Action<'w>, CauseOrMemory>
    ensures ok { IfOk result (λ done. import_of options.now (texts_text texts.now) ≡ Ok (action_text done)) }
    ensures wrong { IfErr result (IsCauseOf (import_of options.now (texts_text texts.now))) }
{
    if options.given.is_some() && !options.is_create {
        return Err(CauseOrMemory::Wrong(WrongCause::SettingsOfNone));
    }
    match names_wrong(options, texts) {
        Some(cause) => Err(CauseOrMemory::Wrong(cause)),
        None => Ok(Action::Import {
            words: import_words(options),
            texts: *texts,
        }),
    }
}

// What is wrong with a header and with the names of columns and fields.
fn names_wrong(options: &Options, texts: &GivenTexts<'_>) -> Option<WrongCause>
    ensures { result ≡ names_wrong options.now.format options.now.has_header (is_some texts.now.key) (is_some texts.now.value) }
{
    match (
        options.format,
        options.has_header,
        texts.key.is_some(),
        texts.value.is_some(),
    ) {
        (PairFormat::Jsonl, false, _, _)
        | (PairFormat::Csv, true, true, true)
        | (PairFormat::Csv, true, false, false) => None,
        (PairFormat::Csv, true, _, _) => Some(WrongCause::OneName),
        (_, true, _, _) => Some(WrongCause::HeaderOfNone),
        (_, false, false, false) => None,
        (_, false, _, _) => Some(WrongCause::NamesOfNone),
    }
}

// How pairs are imported.
fn import_words(options: &Options) -> ImportWords
    ensures { result ≡ words_of options.now }
{
    ImportWords {
        format: options.format,
        has_header: options.has_header,
        is_atomic: options.is_atomic,
        create: if options.is_create {
            Some(options.given.of_new())
        } else {
            None
        },
    }
}

fn export<'w>(places: &[Placed<'w>], options: &Options) -> Result<Action<'w>, CauseOrMemory>
    ensures ok { IfOk result (λ done. export_asked options.now (map placed_word places.now) ≡ Ok (action_text done)) }
    ensures wrong { IfErr result (IsCauseOf (export_asked options.now (map placed_word places.now))) }
{
    match places {
        [] => Ok(Action::Export {
            format: options.format,
            is_bare: options.is_bare,
        }),
        _ => Err(CauseOrMemory::Wrong(WrongCause::TooMany)),
    }
}

fn compact<'w>(places: &[Placed<'w>], options: &Options) -> Result<Action<'w>, CauseOrMemory>
    ensures ok { IfOk result (λ done. compact_asked options.now (map placed_word places.now) ≡ Ok (action_text done)) }
    ensures wrong { IfErr result (IsCauseOf (compact_asked options.now (map placed_word places.now))) }
{
    match places {
        [] => Ok(Action::Compact(options.given)),
        _ => Err(CauseOrMemory::Wrong(WrongCause::TooMany)),
    }
}

fn stats<'w>(places: &[Placed<'w>], options: &Options) -> Result<Action<'w>, CauseOrMemory>
    ensures ok { IfOk result (λ done. stats_asked options.now (map placed_word places.now) ≡ Ok (action_text done)) }
    ensures wrong { IfErr result (IsCauseOf (stats_asked options.now (map placed_word places.now))) }
{
    match places {
        [] => Ok(Action::Stats {
            is_json: options.is_json,
        }),
        _ => Err(CauseOrMemory::Wrong(WrongCause::TooMany)),
    }
}

fn salvage<'w>(places: &[Placed<'w>], options: &Options) -> Result<Action<'w>, CauseOrMemory>
    ensures ok { IfOk result (λ done. salvage_asked options.now (map placed_word places.now) ≡ Ok (action_text done)) }
    ensures wrong { IfErr result (IsCauseOf (salvage_asked options.now (map placed_word places.now))) }
{
    match places {
        [] => Ok(Action::Salvage {
            format: options.format,
            is_bare: options.is_bare,
        }),
        _ => Err(CauseOrMemory::Wrong(WrongCause::TooMany)),
    }
}

// The keys of a get or a del.
#[tactic(auto, using(crate::proofs::Causes::first_wrong, crate::proofs::Causes::wrong_behind, crate::proofs::Causes::then_is))]
fn keys(alloc: Global, places: &[Placed<'_>], options: &Options) -> Result<Keys, CauseOrMemory>
    ensures ok { IfOk result (λ done. keys_asked options.now (map placed_word places.now) ≡ Ok (keys_text done)) }
    ensures wrong { IfErr result (IsCauseOf (keys_asked options.now (map placed_word places.now))) }
{
    if options.form.is_raw && (options.is_from || places.len() > 1) {
        return Err(CauseOrMemory::Wrong(WrongCause::RawKeys));
    }
    match (options.is_from, places) {
        (true, []) => Ok(Keys::Input),
        (true, _) => Err(CauseOrMemory::Wrong(WrongCause::TooMany)),
        (false, []) => Err(CauseOrMemory::Wrong(WrongCause::Missing(Place::Key))),
        (false, [word]) => Ok(Keys::One(key_of(alloc, word.word, options.form.is_hex)?)),
        (false, words) => Ok(Keys::Several(several(alloc, words, options.form.is_hex)?)),
    }
}

// Several keys.
fn several(alloc: Global, words: &[Placed<'_>], is_hex: bool) -> Result<Vec<Key>, CauseOrMemory>
    ensures ok { IfOk result (λ done. several_asked is_hex (map placed_word words.now) ≡ Ok (done.items)) }
    ensures wrong { IfErr result (IsCauseOf (several_asked is_hex (map placed_word words.now))) }
{
    let mut keys = Vec::new(alloc);
    for word in words {
        keys.push(key_of(alloc, word.word, is_hex)?)?;
    }
    Ok(keys)
}

fn put<'w>(
    alloc: Global,
    places: &[Placed<'w>],
    options: &Options,
) -> Result<Action<'w>, CauseOrMemory>
    ensures ok { IfOk result (λ done. put_asked options.now (map placed_word places.now) ≡ Ok (action_text done)) }
    ensures wrong { IfErr result (IsCauseOf (put_asked options.now (map placed_word places.now))) }
{
    match places {
        [] => Err(CauseOrMemory::Wrong(WrongCause::Missing(Place::Key))),
        [_] => Err(CauseOrMemory::Wrong(WrongCause::Missing(Place::Value))),
        [key, value] => put_of(alloc, key, value, options),
        _ => Err(CauseOrMemory::Wrong(WrongCause::TooMany)),
    }
}

#[tactic(auto, using(crate::proofs::Causes::first_wrong, crate::proofs::Causes::wrong_behind, crate::proofs::Causes::then_is))]
fn put_of<'w>(
    alloc: Global,
    key: &Placed<'w>,
    value: &Placed<'w>,
    options: &Options,
) -> Result<Action<'w>, CauseOrMemory>
    ensures ok { IfOk result (λ done. put_of options.now (placed_word key.now) (placed_word value.now) ≡ Ok (action_text done)) }
    ensures wrong { IfErr result (IsCauseOf (put_of options.now (placed_word key.now) (placed_word value.now))) }
{
    let key = key_of(alloc, key.word, options.form.is_hex)?;
    let value = new_value(alloc, value, options.form.is_hex)?;
    Ok(Action::Put {
        key,
        value,
        when: options.when,
    })
}

fn new_value(alloc: Global, value: &Placed<'_>, is_hex: bool) -> Result<NewValue, CauseOrMemory>
    ensures ok { IfOk result (λ done. new_value_asked is_hex (placed_word value.now) ≡ Ok (done)) }
    ensures wrong { IfErr result (IsCauseOf (new_value_asked is_hex (placed_word value.now))) }
{
    match value.word {
        b"-" if !value.is_behind => Ok(NewValue::Input),
        word => Ok(NewValue::Word(value_of(alloc, word, is_hex, Place::Value)?)),
    }
}

fn swap<'w>(alloc: Global, places: &[Placed<'w>], is_hex: bool) -> Result<Action<'w>, CauseOrMemory>
    ensures ok { IfOk result (λ done. swap_asked is_hex (map placed_word places.now) ≡ Ok (action_text done)) }
    ensures wrong { IfErr result (IsCauseOf (swap_asked is_hex (map placed_word places.now))) }
{
    match places {
        [] => Err(CauseOrMemory::Wrong(WrongCause::Missing(Place::Key))),
        [_] => Err(CauseOrMemory::Wrong(WrongCause::Missing(Place::Old))),
        [_, _] => Err(CauseOrMemory::Wrong(WrongCause::Missing(Place::New))),
        [key, old, new] => swap_of(alloc, key, old, new, is_hex),
        _ => Err(CauseOrMemory::Wrong(WrongCause::TooMany)),
    }
}

#[tactic(auto, using(crate::proofs::Causes::first_wrong, crate::proofs::Causes::wrong_behind, crate::proofs::Causes::then_is))]
fn swap_of<'w>(
    alloc: Global,
    key: &Placed<'w>,
    old: &Placed<'w>,
    new: &Placed<'w>,
    is_hex: bool,
) -> Result<Action<'w>, CauseOrMemory>
    ensures ok { IfOk result (λ done. swap_of is_hex (placed_word key.now) (placed_word old.now) (placed_word new.now) ≡ Ok (action_text done)) }
    ensures wrong { IfErr result (IsCauseOf (swap_of is_hex (placed_word key.now) (placed_word old.now) (placed_word new.now))) }
{
    let key = key_of(alloc, key.word, is_hex)?;
    let old = value_of(alloc, old.word, is_hex, Place::Old)?;
    let new = value_of(alloc, new.word, is_hex, Place::New)?;
    Ok(Action::Swap { key, old, new })
}
