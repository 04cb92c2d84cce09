//! Keywords.

ghost use Rattle.std.specs.Prelude.{◌≡◌};
ghost use Rattle.hum_syntax.specs.Forms as spec;

/// The words that are no names. Each variant is named after its word.
#[derive(Clone, Copy, Debug, PartialEq, Eq)]
pub enum Keyword {
    KwLet,
    KwSend,
    KwTo,
    KwCreate,
    KwWith,
    KwBecome,
    KwThrow,
    KwNew,
    KwSelf,
    KwCase,
    KwOf,
    KwEnd,
    KwIf,
    KwElif,
    KwElse,
    KwTrue,
    KwFalse,
    KwNil,
    KwAfter,
    KwIn,
}

/// Each keyword once.
pub const KEYWORDS: [Keyword; 20] = [
    Keyword::KwLet,
    Keyword::KwSend,
    Keyword::KwTo,
    Keyword::KwCreate,
    Keyword::KwWith,
    Keyword::KwBecome,
    Keyword::KwThrow,
    Keyword::KwNew,
    Keyword::KwSelf,
    Keyword::KwCase,
    Keyword::KwOf,
    Keyword::KwEnd,
    Keyword::KwIf,
    Keyword::KwElif,
    Keyword::KwElse,
    Keyword::KwTrue,
    Keyword::KwFalse,
    Keyword::KwNil,
    Keyword::KwAfter,
    Keyword::KwIn,
];

impl Keyword {
    /// How the keyword is written.
    pub fn word(self) -> &'static [u8]
        ensures { result.now ≡ spec.word_of self }
    {
        match self {
            Keyword::KwLet => b"LET",
            Keyword::KwSend => b"SEND",
            Keyword::KwTo => b"TO",
            Keyword::KwCreate => b"CREATE",
            Keyword::KwWith => b"WITH",
            Keyword::KwBecome => b"BECOME",
            Keyword::KwThrow => b"THROW",
            Keyword::KwNew => b"NEW",
            Keyword::KwSelf => b"SELF",
            Keyword::KwCase => b"CASE",
            Keyword::KwOf => b"OF",
            Keyword::KwEnd => b"END",
            Keyword::KwIf => b"IF",
            Keyword::KwElif => b"ELIF",
            Keyword::KwElse => b"ELSE",
            Keyword::KwTrue => b"TRUE",
            Keyword::KwFalse => b"FALSE",
            Keyword::KwNil => b"NIL",
            Keyword::KwAfter => b"AFTER",
            Keyword::KwIn => b"IN",
        }
    }

    /// The keyword that a run is.
    pub fn of_run(run: &[u8]) -> Option<Keyword>
        ensures { result ≡ spec.keyword_of run.now }
    {
        let mut rest: &[Keyword] = &KEYWORDS;
        while let [keyword, more @ ..] = rest {
            if run == keyword.word() {
                return Some(*keyword);
            }
            rest = more;
        }
        None
    }
}
