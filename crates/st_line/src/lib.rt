//! One line of assembly text: its tokens, the label that it defines, and its statement or the least fault in it.
//!
//! - `read_line` is the grammar of a line (`specs/Statement.antt`): its statement, where it stands so, or the least of the
//!   faults E1 to E5. Faults that hang on other lines (double labels, missing labels, sizes) are found a crate above.
//! - `line_label` is the label that a line defines, whatever else stands on it.
//! - `tokens` cuts a text into its tokens; `AreTokens` (`specs/Tokens.antt`) says what these are.
//! - `is_name` and `register_name` say how names and registers are written.
//!
//! The layers: `lexer` and `lexeme` (tokens by their texts), `operand`, `integer` and `text` (what one operand may be),
//! `forms` (so many operands, each of its form), `rows`, `pseudos` and `directives` (statements by their first word, which
//! `words` looks up), `reader` (the line). Integers of any length are read with a cap beyond every range; the contracts say
//! what that gives for the integer itself (`capped` in `specs/Views.antt`). All take time linear in the line.
#![tactic(auto)]

mod directives;
mod fault;
mod forms;
mod integer;
mod lexeme;
mod lexer;
mod operand;
mod pseudos;
mod reader;
mod rows;
mod source;
mod text;
mod words;

pub use fault::{AsmFault, AsmKind, LineError};
pub use lexeme::is_name;
pub use lexer::{Token, tokens};
pub use reader::{line_label, read_line};
pub use source::{Part, SourceIns, Standing, Statement, Target};
pub use words::{Directive, NumberSize, Pseudo, Word, register_name};
