// Numbers, names and words as text. specs/Text.antt says what each is.

#![tactic(auto)]

pub mod lines;
pub mod read;
pub mod write;

// A value read at a place, and the place behind its separator.
pub type Placed<T> = (T, usize);
