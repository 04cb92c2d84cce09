//! Kinds of bytes, and how long the bytes of one kind go on.

ghost use Rattle.std.specs.Prelude.{◌≡◌, ◌≤◌, length};
ghost use Rattle.std.specs.List.{prefix_len};
ghost use Rattle.hum_syntax.specs.Forms as forms;
ghost use Rattle.hum_lex.specs.Fronts as spec;

/// Bytes that belong together.
#[derive(Clone, Copy, Debug, PartialEq, Eq)]
pub enum Class {
    /// The bytes of a run.
    Run,
    /// All but a line feed.
    Line,
}

pub fn is_blank(b: u8) -> bool
    ensures { result ≡ forms.is_blank b }
{
    b == b' ' || b == b'\t' || b == b'\r' || b == b'\n'
}

pub fn is_delimiter(b: u8) -> bool
    ensures { result ≡ forms.is_delimiter b }
{
    b == b'('
        || b == b')'
        || b == b'['
        || b == b']'
        || b == b','
        || b == b'.'
        || b == b'='
        || b == b':'
        || b == b'"'
        || b == b'$'
        || b == b'\\'
        || b == b'#'
}

pub fn is_run_byte(b: u8) -> bool
    ensures { result ≡ forms.is_run_byte b }
{
    33 <= b && b <= 126 && !is_delimiter(b)
}

fn is_in(class: Class, b: u8) -> bool
    ensures { result ≡ spec.is_in class b }
{
    match class {
        Class::Run => is_run_byte(b),
        Class::Line => b != b'\n',
    }
}

/// How many bytes of the class stand at the front.
pub fn len_of(class: Class, bytes: &[u8]) -> usize
    ensures value { result ≡ prefix_len (spec.is_in class) bytes.now }
    ensures within { result ≤ length bytes.now }
{
    let mut rest = bytes;
    let mut len = 0;
    while let [b, more @ ..] = rest {
        if !is_in(class, *b) {
            break;
        }
        len += 1;
        rest = more;
    }
    len
}
