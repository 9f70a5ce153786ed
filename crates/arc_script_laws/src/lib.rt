//! What holds of the texts of the script language, the accepted and the refused ones.
//!
//! No function does anything: the contracts are laws. What is written is read back as the same script, what is read is one, and a line
//! that is refused is what its number says, in both versions of the language. Nothing that runs needs them.
#![tactic(auto)]

mod laws;

pub use laws::{
    accepted_line_says, accepted_text_says, read_is_valid, refused_line_has, refused_text_has,
    run_has_names, written_is_read,
};
