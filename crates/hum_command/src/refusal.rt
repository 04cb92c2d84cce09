// Why contents are refused.
ghost use Rattle.std.specs.Prelude.{◌≡◌};
ghost use Rattle.hum_command.specs.Refusals as spec;

use cap_words::Name;
use hum_front::LineColumn;
use hum_lex::LexCause;
use hum_meaning::ScopeCause;
use uasm_image::{ImageCause, ImageRefused};
use uasm_read::{UasmCause, UasmRefused};

/// Why the contents of files are refused. The line of each on err is defined in specs/Refusals.
#[derive(Drop)]
pub enum Refusal {
    /// A file of `exec` has more bytes than an image can have.
    FileTooLong,
    /// The bytes begin as those of an image and are none.
    Image(ImageRefused),
    /// A text is no module.
    Module(UasmRefused),
    /// Two exports have this name.
    Twice(Name),
    /// Nothing exports this import.
    NoSuch(Name),
    /// Nothing exports `boot`.
    NoBoot,
    /// The modules have more items than an image has room for.
    TooLarge,
}

/// What is wrong in a text.
#[derive(Drop)]
pub enum TextCause {
    /// It has no tokens.
    Tokens(LexCause),
    /// Its tokens spell no tree.
    Tree,
    /// A name of its tree is refused.
    Name(ScopeCause, Vec<u8>),
}

/// Why a text is refused. The line of each on err is defined in specs/Refusals.
#[derive(Drop)]
pub enum TextRefusal {
    /// It is longer than its limit.
    TooLong,
    /// Something is wrong at a line and a column.
    At(LineColumn, TextCause),
}

/// What is said of a line that is refused.
pub fn cause_text(cause: UasmCause) -> &'static [u8]
    ensures { result.now ≡ spec.cause_text cause }
{
    match cause {
        UasmCause::TooLong => b"text too long",
        UasmCause::BadLine => b"bad line",
        UasmCause::NoOperation => b"no such operation",
        UasmCause::BadOperand => b"bad operand",
        UasmCause::Twice => b"label twice",
        UasmCause::Unknown => b"unknown name",
        UasmCause::FallsOff => b"falls off the end",
    }
}

/// What is said of a place in an image that is refused.
pub fn image_cause_text(cause: ImageCause) -> &'static [u8]
    ensures { result.now ≡ spec.image_cause_text cause }
{
    match cause {
        ImageCause::Magic => b"magic",
        ImageCause::Count => b"count",
        ImageCause::Word => b"word",
        ImageCause::Truncated => b"truncated",
        ImageCause::Extra => b"extra bytes",
    }
}

fn lex_cause_text(cause: LexCause) -> &'static [u8]
    ensures { result.now ≡ spec.lex_cause_text cause }
{
    match cause {
        LexCause::BadByte => b"bad byte",
        LexCause::BadText => b"bad text",
        LexCause::RunTooLong => b"name too long",
        LexCause::NumberRange => b"number out of range",
        LexCause::NotInProfile => b"not in this profile",
        LexCause::TooLarge => b"program too large",
    }
}

fn scope_cause_text(cause: ScopeCause) -> &'static [u8]
    ensures { result.now ≡ spec.scope_cause_text cause }
{
    match cause {
        ScopeCause::Unbound => b"unbound name ",
        ScopeCause::Twice => b"name bound twice ",
        ScopeCause::TooManyNames => b"too many names",
    }
}

/// What is said of a place in a text that is refused.
pub fn text_cause_text(cause: &TextCause) -> &'static [u8]
    ensures { result.now ≡ spec.text_cause_text cause.now }
{
    match cause {
        TextCause::Tokens(cause) => lex_cause_text(*cause),
        TextCause::Tree => b"not a program",
        TextCause::Name(cause, _) => scope_cause_text(*cause),
    }
}

/// The name that is told of, if one is.
pub fn told_name(cause: &TextCause) -> &[u8]
    ensures { result.now ≡ spec.told_name cause.now }
{
    match cause {
        TextCause::Name(ScopeCause::Unbound | ScopeCause::Twice, name) => name,
        _ => b"",
    }
}
