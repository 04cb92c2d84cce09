// Why a text is not accepted.

use hum_lex::LexRefused;
use hum_scope::ScopeRefused;

/// Why a text is not accepted. All places are bytes of the text.
#[derive(Clone, Copy, Debug, PartialEq, Eq)]
pub enum StartError {
    NoMemory,
    /// The text has more than 1,048,576 bytes.
    TooLong,
    /// It has no tokens that are light enough.
    Lex(LexRefused),
    /// Its tokens spell no tree. The place is that of the first token that cannot stand there, or the end of the text.
    Parse { at: u32 },
    /// A name of its tree is refused. The place is that of the name.
    Scope(ScopeRefused),
}
