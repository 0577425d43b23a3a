// Makes of price source from outside the library: what a new make looks like, and what it has to show.
#![tactic(auto)]

mod cached;
mod constant;
mod questions;
mod recorder;
mod remembered;
mod run;

pub use cached::Cached;
pub use constant::Constant;
pub use questions::Questions;
pub use recorder::Recorder;
pub use run::ask_each;

#[cfg(test)]
mod tests;
