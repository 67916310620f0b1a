//! The program but for its standard streams: the words ask for a schedule that is played on a founding, for the members of a founding
//! that serve callers, or for what lines leave: a policy as lines, as a page, as answers to questions.
#![tactic(auto)]

pub mod command;
mod fault;
mod founding_file;
mod linting;
mod member;
mod play;
mod serving;
mod telling;
mod words;
