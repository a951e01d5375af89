//! The lines of a session.
ghost use Rattle.std.specs.Prelude.{◌≡◌, None, Some, IfNone, IfSome, IsTrue, IsUtf8};
ghost use Rattle.cu_words.specs.Names as names;
ghost use Rattle.cu_words.specs.Numbers.{IsIn};
ghost use Rattle.cu_words.specs.Requests.{IsRequestInRange, IsSettingInRange, after, answers_of};
ghost use Rattle.cu_words.specs.Requests.{limit_of, load_of, number_to, request_of, requested};
ghost use Rattle.cu_words.specs.Requests.{setting_of};

use crate::names::is_module_name;
use crate::numbers::read_number;
use crate::setting::Setting;

/// What a line of a session asks for.
#[derive(Clone, Copy, Debug, PartialEq, Eq)]
pub enum Request<'a> {
    /// The module of this name.
    Load(&'a str),
    /// The goal of this text.
    Ask(&'a [u8]),
    /// The next lines of the listing.
    Next,
    /// Another limit, or another number of workers.
    Limit(Setting),
    /// The end of the session.
    Quit,
    /// Nothing that a session knows.
    Unknown,
}

/// What a line of a session asks for, without the end of the line. It takes no
/// memory.
pub fn read_line(line: &[u8]) -> Request<'_>
    ensures read { requested result ≡ request_of line.now }
    ensures ranges { IsRequestInRange (requested result) }
{
    if let Some(name) = after("load ", line) {
        read_load(name)
    } else if let Some(text) = after("ask ", line) {
        Request::Ask(text)
    } else if line == b"next".as_slice() {
        Request::Next
    } else if let Some(text) = after("limits ", line) {
        read_limit(text)
    } else if line == b"quit".as_slice() {
        Request::Quit
    } else {
        Request::Unknown
    }
}

/// What `load` asks for, with this text after it.
fn read_load(name: &[u8]) -> Request<'_>
    ensures read { requested result ≡ load_of name.now }
    ensures ranges { IsRequestInRange (requested result) }
{
    match read_name(name) {
        Some(name) => Request::Load(name),
        None => Request::Unknown,
    }
}

/// The name of a module that a text is.
fn read_name(text: &[u8]) -> Option<&str>
    ensures read { IfSome result (λ name.
        (name.now ≡ text.now) × IsTrue (names.is_module_name text.now)) }
    ensures refused { IfNone result (IsTrue (names.is_module_name text.now) → ⊥) }
{
    let name = characters(text)?;
    if is_module_name(name) {
        Some(name)
    } else {
        None
    }
}

/// What `limits` asks for, with this text after it.
fn read_limit(text: &[u8]) -> Request<'_>
    ensures read { requested result ≡ limit_of text.now }
    ensures ranges { IsRequestInRange (requested result) }
{
    match read_setting(text) {
        Some(setting) => Request::Limit(setting),
        None => Request::Unknown,
    }
}

/// The setting that a text is, as a name, a space and a value.
fn read_setting(text: &[u8]) -> Option<Setting>
    ensures read { result ≡ setting_of text.now }
    ensures ranges { IfSome result IsSettingInRange }
{
    if let Some(value) = after("rounds ", text) {
        Some(Setting::Rounds(number(value, 1_000_000_000)?))
    } else if let Some(value) = after("answers ", text) {
        Some(Setting::Answers(read_answers(value)?))
    } else if let Some(value) = after("nodes ", text) {
        Some(Setting::Nodes(small_number(value, 16_777_216)?))
    } else if let Some(value) = after("width ", text) {
        Some(Setting::Width(small_number(value, 1_048_576)?))
    } else if let Some(value) = after("stride ", text) {
        Some(Setting::Stride(number(value, 1_000_000)?))
    } else if let Some(value) = after("workers ", text) {
        Some(Setting::Workers(small_number(value, 64)?))
    } else {
        None
    }
}

/// The limit on answers that a text is: a number, or `none`.
fn read_answers(text: &[u8]) -> Option<Option<u64>>
    ensures read { result ≡ answers_of text.now }
    ensures ranges { IfSome result (λ answers. IfSome answers (IsIn 1 1000000000)) }
{
    if text == b"none".as_slice() {
        Some(None)
    } else {
        Some(Some(number(text, 1_000_000_000)?))
    }
}

/// The number from 1 to `high` that a text is, in 1 to 19 digits.
fn number(text: &[u8], high: u64) -> Option<u64>
    ensures read { result ≡ number_to high text.now }
    ensures range { IfSome result (IsIn 1 high) }
{
    read_number(characters(text)?, 1, high)
}

/// The number from 1 to `high` that a text is, in 1 to 19 digits, in 32 bits.
fn small_number(text: &[u8], high: u32) -> Option<u32>
    ensures read { result ≡ number_to high text.now }
    ensures range { IfSome result (IsIn 1 high) }
{
    let number = number(text, u64::from(high))?;
    Some(number as u32)
}

/// The bytes as characters, where they are UTF-8.
fn characters(bytes: &[u8]) -> Option<&str>
    ensures read { IfSome result (λ text. text.now ≡ bytes.now) }
    ensures refused { IfNone result (IsUtf8 bytes.now → ⊥) }
{
    str::from_utf8(bytes).ok()
}

/// What stands in a text after this beginning, where it begins so.
fn after<'a>(beginning: &str, text: &'a [u8]) -> Option<&'a [u8]>
    ensures found { IfSome result (λ rest. after beginning.now text.now ≡ Some rest.now) }
    ensures missing { IfNone result (after beginning.now text.now ≡ None) }
{
    text.strip_prefix(beginning.as_bytes())
}
