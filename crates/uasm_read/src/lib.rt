//! Assembly text to modules and back: `read_module` gives the module of a text, or the first line that is refused and why.
//!
//! A text is ASCII in lines, each ended by a line feed or the end of the text; a carriage return directly before a line feed is a blank.
//! `;` begins a comment. Spaces and tabs separate parts. A name is a letter or `_`, then letters, digits and `_`, at most 128 bytes.
//!
//! | line | meaning |
//! |---|---|
//! | empty, or a comment alone | nothing |
//! | `.import NAME` | NAME is another module's export |
//! | `.export NAME` | NAME is a label of this module |
//! | `NAME:` | label of the next item |
//! | an operation with its operand | an item: the cell of that instruction; its next is the item after it |
//! | `ref NAME` | the next of the instruction before is NAME; only blank lines may stand between |
//! | `pair_t X Y` | the item `#pair_t`, X, Y, `#?` |
//! | `cell T X Y Z` | the item of these four words |
//!
//! A word is a decimal from -1073741824 to 1073741823 (digits with at most one `-` before them, leading zeros allowed, at most 128 bytes),
//! a constant such as `#nil`, or a name. The operations with their operands are those of the table `row_of` in `specs/`;
//! `lines_spell_operations` says that each is one of the instruction table, and `operations_have_lines` that the table has no others.
//! `end` and `jump` have the next `#?`, but for a `ref`.
//!
//! A text is refused by the first of these: it has more than 1,048,576 bytes; its first line that has no form, is a label that neither an
//! item nor a line without a form follows or a `ref` that follows no instruction, or names a label or import a second time; its first line
//! that uses what is neither label nor import, or exports what is no label; its first instruction other than `end` and `jump` that has no
//! `ref`, and that no item follows or one whose first word is not `#instr_t`.
//!
//! `write_module` gives a text that assembles to a module.
#![tactic(auto)]

mod build;
mod error;
mod faults;
mod item;
mod laws;
mod line;
mod lines;
mod module;
mod operand;
mod operands;
mod operation;
mod read;
mod spells;
mod texts;
mod write;

pub use error::{ReadModuleError, UasmCause, UasmRefused};
pub use item::{Item, Items, Names};
pub use laws::{lines_spell_operations, operations_have_lines};
pub use module::Module;
pub use operand::Operand;
pub use read::read_module;
pub use write::write_module;
