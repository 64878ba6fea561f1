// Names (document 01, "Names and dates"): Radix-50 words, and text as bytes. Nothing here knows of directories.
#![tactic(auto)]

pub mod radix;
pub mod text;

pub use radix::{is_legal_name, text_of_words, words_of_text};
pub use text::same_bytes;
