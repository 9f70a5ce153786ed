//! The script language: what a script is, which lines there are, and what the words of an operation or a declaration say.
//!
//! What is a script (`IsScript`), with its names, kinds, classes and limits; which lines there are, as a table; and the functions by
//! which the words of one line are taken apart. Each refusal has a number, and the table says which comes first.
//!
//! Reading a whole text is `arc_script_reader`'s, writing one `arc_script_text`'s, and what holds of both `arc_script_laws`'. What an
//! operation does is said in `arc_programs`.
#![tactic(auto)]

mod answer;
mod copy;
mod declaration;
mod find;
mod keyword;
mod operation;
mod reason;
mod script;

pub use answer::{Answer, Line};
pub use arc_text::Name;
pub use declaration::decl_of;
pub use find::{class_place, fields_at, is_weak, is_weak_immortal, kind_of, ref_at};
pub use keyword::{
    BlockWord, Keyword, PairWord, Place, is_heading_word, is_open, keyword_of, stands,
};
pub use operation::{begins_block, goes_to, op_of};
pub use reason::{LineFault, Reason};
pub use script::{
    ClassDecl, FieldDecl, Heading, Op, OpCell, ReadFault, Script, ThreadDecl, VarDecl,
};
