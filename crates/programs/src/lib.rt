// What programs share: reading an input of which the front is kept, and putting words, numbers and lines into an area.
#![tactic(auto)]

mod input;
mod printing;

pub use input::{counted_on, gather};
pub use printing::{put_effect, put_number, put_refusal, put_word};
