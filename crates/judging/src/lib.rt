//! What is wrong with a rejected text: the line and the word, by the rules of docs/FORMATS.md. Also tables of the terms
//! of other systems, and the names that are near to a word.
//!
//! Lines and words are those of `text` (`line_at`, `Line`). Tested, together with `refusing`: the place of a fault, the
//! line of an unknown name, which other faults are reported, and the messages.
#![tactic(auto)]

mod events;
mod fault;
mod hints;
mod instructions;
mod lines;
mod names;
mod numbers;
mod unknown;
mod words;
mod world;

pub use events::refusal_of;
pub use fault::{Definition, Fault, NameUse, Named, Number, Refusal};
pub use hints::{no_text, oddity, other_call, other_instruction};
pub use instructions::{Operands, is_call, is_instruction, operands_of};
pub use lines::{Line, has_one_line, is_listed, last_with_words, line_at};
pub use names::{nearest_call, nearest_in, nearest_instruction};
pub use unknown::{Mistake, Note, label_line, mistake_of, program_line};
pub use words::{is_byte, is_long_name, is_number, is_register, lower, upper};
pub use world::{Label, World};
