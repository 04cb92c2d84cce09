// Lines and their parts.

ghost use Rattle.std.specs.Prelude.{◌≡◌, ◌<◌, ◌≤◌, ◌∷◌, [], length, IfSome, MatchOption};
ghost use Rattle.std.specs.List.{prefix_len};
ghost use Rattle.std.specs.Option.{option_map_or};
ghost use Rattle.uasm_read.specs.Texts as texts;
ghost use Rattle.quad_debug.specs.Reading as reading;

/// Bytes that belong together.
#[derive(Clone, Copy, Debug, PartialEq, Eq)]
pub enum Class {
    /// Space and tab.
    Blank,
    /// All but these.
    Part,
    /// All but a line feed.
    Line,
}

fn is_blank(b: u8) -> bool
    ensures { result ≡ texts.is_blank b }
{
    b == b' ' || b == b'\t'
}

fn is_in(class: Class, b: u8) -> bool
    ensures { result ≡ reading.is_in class b }
{
    match class {
        Class::Blank => is_blank(b),
        Class::Part => !is_blank(b),
        Class::Line => b != b'\n',
    }
}

// How many bytes of the class stand at the front.
fn len_of(class: Class, bytes: &[u8]) -> usize
    ensures value { result ≡ prefix_len (reading.is_in class) bytes.now }
    ensures within { result ≤ length bytes.now }
{
    let mut rest = bytes;
    let mut len = 0;
    while let [b, more @ ..] = rest {
        if !is_in(class, *b) {
            break;
        }
        len += 1;
        rest = more;
    }
    len
}

// A line without the carriage return at its end.
fn without_return(line: &[u8]) -> &[u8]
    ensures value { result.now ≡ texts.without_return line.now }
    ensures within { length result.now ≤ length line.now }
{
    if let [front @ .., b'\r'] = line {
        front
    } else {
        line
    }
}

/// The line in front, and what stands behind it, if it is not the last one.
pub fn cut_line(text: &[u8]) -> (&[u8], Option<&[u8]>)
    ensures lines { texts.lines_of text.now ≡ result.0.now ∷ option_map_or (λ rest. texts.lines_of rest.now) result.1 [] }
    ensures within { length result.0.now ≤ length text.now }
    ensures shorter { IfSome result.1 (λ rest. length rest.now < length text.now) }
{
    let len = len_of(Class::Line, text);
    if len == text.len() {
        return (text, None);
    }
    (without_return(&text[..len]), Some(&text[len + 1..]))
}

/// The first part and what stands behind it.
pub fn next_part(text: &[u8]) -> Option<(&[u8], &[u8])>
    ensures some { IfSome result (λ parts. 0 < length text.now) }
    ensures parts { MatchOption result (texts.parts_of text.now ≡ []) (λ parts. texts.parts_of text.now ≡ parts.0.now ∷ texts.parts_of parts.1.now) }
{
    let start = len_of(Class::Blank, text);
    if start == text.len() {
        return None;
    }
    let text = &text[start..];
    let end = len_of(Class::Part, text);
    Some(text.split_at(end))
}
