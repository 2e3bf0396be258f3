//! Keys and values of standard input.
ghost use Rattle.std.specs.Prelude.{◌≡◌, ◌<◌, ◌⊎◌, ◌/◌, length, true, Ok, Err, None, IfOk, IfErr, MatchOption, MatchResult};
ghost use Rattle.hex.specs.Hex.{decode_of};
ghost use Rattle.exh_text.specs.TextLines.{newline, parts_at};
ghost use Rattle.exh_run.specs.Input.{AreKeys, AreKeysOf, HasNoKeys, IsBeforeNewline, IsNoKeys, IsTaken, IsValueOf, KeysEnd, ValueEnds, bytes_decoded, if_value, key_of_line, value_of_bytes};

use crate::Run;
use crate::wrong_input::WrongInput;
use exh_job::Status;
use exh_page::{KEY_LIMIT, Key, VALUE_LIMIT, Value};
use exh_request::Form;
use exh_stream::{InputFault, Source};
use exh_text::{Parts, ReasonReader, SCRIPT_LIMIT, parse_key};
use exhash::{INPUT, Reason};
use std::alloc::Global;
use std::cell::Cell;
use std::io;
use std::io::ErrorKind;

/// The keys of standard input, one a line: a word of a text of pairs, or hexadecimal digits. Where a line is no key, or they
/// aren't read, standard error says so, and the answer is the status with which the program ends.
pub fn input_keys(run: &Run<'_>) -> Result<Vec<Key>, Status>
    ensures { IfErr result (λ status. status ≡ Status.Refused) }
{
    let text = input_text(run);
    end_keys(run, text)
}

// Ends the reading of keys by what is read.
fn end_keys(run: &Run<'_>, text: Result<Vec<u8>, WrongInput>) -> Result<Vec<Key>, Status>
    ensures read { MatchResult text (λ text. KeysEnd run.now.form.is_hex text.items (λ keys. keys.items) result) (λ _. result ≡ Err Status.Refused) }
    ensures refused { IfErr result (λ status. status ≡ Status.Refused) }
{
    match text {
        Ok(text) => keys_or_refused(run, &text),
        Err(wrong) => Err(refuse_input(run, wrong)),
    }
}

// The keys of a text, or the status where it gives none.
fn keys_or_refused(run: &Run<'_>, text: &[u8]) -> Result<Vec<Key>, Status>
    ensures { KeysEnd run.now.form.is_hex text.now (λ keys. keys.items) result }
{
    match keys_in(run.rt.alloc(), text, run.form.is_hex) {
        Ok(keys) => Ok(keys),
        Err(wrong) => Err(refuse_input(run, wrong)),
    }
}

/// The value of standard input, of which one newline at its end is left off, unless it is to be kept. Where it is none, or
/// isn't read, standard error says so, and the answer is the status with which the program ends.
pub fn input_value(run: &Run<'_>) -> Result<Value, Status>
    ensures { IfErr result (λ status. status ≡ Status.Refused) }
{
    let text = input_text(run);
    end_value(run, text)
}

// Ends the reading of a value by what is read.
fn end_value(run: &Run<'_>, text: Result<Vec<u8>, WrongInput>) -> Result<Value, Status>
    ensures read { MatchResult text (λ text. ValueEnds run.now.form.is_raw run.now.form.is_hex text.items result) (λ _. result ≡ Err Status.Refused) }
    ensures refused { IfErr result (λ status. status ≡ Status.Refused) }
{
    match text {
        Ok(text) => value_or_refused(run, &text),
        Err(WrongInput::TooLong) => Err(refuse_input(run, WrongInput::EndlessValue)),
        Err(wrong) => Err(refuse_input(run, wrong)),
    }
}

// The value of a text, or the status where it gives none.
fn value_or_refused(run: &Run<'_>, text: &[u8]) -> Result<Value, Status>
    ensures { ValueEnds run.now.form.is_raw run.now.form.is_hex text.now result }
{
    match value_in(text, run.form) {
        Ok(value) => Ok(value),
        Err(wrong) => Err(refuse_input(run, wrong)),
    }
}

// Says what is wrong with standard input, and gives the status with which the program ends.
fn refuse_input(run: &Run<'_>, wrong: WrongInput) -> Status
    ensures { result ≡ Status.Refused }
{
    let _ = eprintln!(run.rt; "exhash: {INPUT}: {wrong}");
    Status::Refused
}

// All bytes of standard input.
fn input_text(run: &Run<'_>) -> Result<Vec<u8>, WrongInput> {
    let reason = Cell::new(None);
    let mut reader = ReasonReader::new(run.rt.reader(), &reason);
    match Source::new(&mut reader).read_whole(run.rt.alloc(), SCRIPT_LIMIT) {
        Ok(text) => Ok(text),
        Err(InputFault::TooLong) => Err(WrongInput::TooLong),
        Err(InputFault::Memory) => Err(WrongInput::Memory),
        Err(InputFault::Read) => Err(WrongInput::Unread(error_in(&reason))),
    }
}

// Why reading failed.
fn error_in(reason: &Reason) -> io::Error {
    match reason.get() {
        Some(error) => error,
        None => io::Error::from(ErrorKind::Other),
    }
}

// The keys of lines, of which the last may lack its newline.
//
// `Line`: the first that is no key. `Memory` may come at any text.
fn keys_in(alloc: Global, text: &[u8], is_hex: bool) -> Result<Vec<Key>, WrongInput>
    ensures ok { IfOk result (λ keys. AreKeysOf is_hex text.now keys.items) }
    ensures err { IfErr result (HasNoKeys is_hex text.now) }
{
    if text.is_empty() {
        return Ok(Vec::new(alloc));
    }
    keys_of_lines(alloc, without_newline(text), is_hex)
}

// The keys of lines that newlines part.
//
// Errors: as of `keys_in`.
fn keys_of_lines(alloc: Global, text: &[u8], is_hex: bool) -> Result<Vec<Key>, WrongInput>
    ensures ok { IfOk result (λ keys. AreKeys is_hex (parts_at newline text.now) keys.items) }
    ensures err { IfErr result (IsNoKeys is_hex (parts_at newline text.now)) }
{
    let mut keys = Vec::new(alloc);
    for line in Parts::new(b'\n', text) {
        match key_of_line(line, is_hex) {
            Some(key) => keys.push(key)?,
            None => return Err(WrongInput::Line(keys.len() as u64 + 1)),
        }
    }
    Ok(keys)
}

// The key of a line.
fn key_of_line(line: &[u8], is_hex: bool) -> Option<Key>
    ensures { result ≡ key_of_line is_hex line.now }
{
    if is_hex {
        key_of_digits(line)
    } else {
        parse_key(line).ok()
    }
}

// The key that hexadecimal digits spell.
#[tactic(auto, using(crate::proofs::Inputs::no_key_of_digits))]
fn key_of_digits(digits: &[u8]) -> Option<Key>
    ensures { result ≡ key_of_line true digits.now }
{
    let mut bytes = [0; KEY_LIMIT];
    let bytes = decoded(digits, &mut bytes)?;
    Key::from_bytes(bytes).ok()
}

// The value of a text.
//
// `LongValue`: it has more bytes than a value. `NoDigits`: it isn't hexadecimal digits, where these are asked for.
fn value_in(text: &[u8], form: Form) -> Result<Value, WrongInput>
    ensures { IsValueOf form.is_raw form.is_hex text.now result }
{
    value_of(taken_of(text, form.is_raw), form.is_hex)
}

// What is taken of a text for a value.
fn taken_of(text: &[u8], is_raw: bool) -> &[u8]
    ensures { IsTaken is_raw text.now result.now }
{
    if is_raw { text } else { without_newline(text) }
}

// The value that bytes are, or that hexadecimal digits spell.
//
// Errors: as of `value_in`.
fn value_of(bytes: &[u8], is_hex: bool) -> Result<Value, WrongInput>
    ensures { result ≡ value_of_bytes is_hex bytes.now }
{
    if is_hex {
        value_of_digits(bytes)
    } else {
        value_of_plain(bytes)
    }
}

// The value of hexadecimal digits.
fn value_of_digits(digits: &[u8]) -> Result<Value, WrongInput>
    ensures { result ≡ value_of_bytes true digits.now }
{
    if digits.len() / 2 > VALUE_LIMIT {
        return Err(WrongInput::LongValue(digits.len() / 2));
    }
    let mut bytes = [0; VALUE_LIMIT];
    match decoded(digits, &mut bytes) {
        Some(bytes) => value_of_plain(bytes),
        None => Err(WrongInput::NoDigits),
    }
}

// The value that bytes are.
fn value_of_plain(bytes: &[u8]) -> Result<Value, WrongInput>
    ensures { result ≡ if_value bytes.now }
{
    match Value::from_bytes(bytes) {
        Ok(value) => Ok(value),
        Err(_) => Err(WrongInput::LongValue(bytes.len())),
    }
}

// The bytes of hexadecimal digits, two a byte, in either case, in a buffer; `None` where they are none, or more than it has.
fn decoded<'b>(digits: &[u8], buffer: &'b mut [u8]) -> Option<&'b [u8]>
    ensures { MatchOption result ((bytes_decoded (decode_of digits.now) ≡ None) ⊎ (length buffer.old < length digits.now / 2)) (λ bytes. decode_of digits.now ≡ Ok bytes.now) }
{
    let len = digits.len() / 2;
    if len > buffer.len() {
        return None;
    }
    let bytes = &mut buffer[..len];
    match hex::decode_to_slice(digits, bytes) {
        Ok(()) => Some(bytes),
        Err(_) => None,
    }
}

// A text without the newline at its end, if it ends in one.
fn without_newline(text: &[u8]) -> &[u8]
    ensures { IsBeforeNewline text.now result.now }
{
    match text {
        [front @ .., b'\n'] => front,
        _ => text,
    }
}
