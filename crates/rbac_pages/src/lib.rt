//! Pages for people: a policy as a page and as a graph of its roles, what a command would be answered and why, who may do what, and what the lines
//! of a schedule do to the members of a group, as a text for each line and as Lamport's space-time diagram. The layouts are this project's own and may change.
#![tactic(auto)]

mod diagram;
mod difference;
mod explanation;
mod grantees;
mod granting;
mod held;
mod hindering;
mod policy_page;
mod refusing;
mod roles_graph;
mod text;
mod trace;

pub use diagram::Diagram;
pub use difference::difference_lines;
pub use explanation::{Explanation, Verdict};
pub use grantees::who;
pub use granting::why;
pub use policy_page::page;
pub use refusing::{refused_line_text, refused_text};
pub use roles_graph::graph;
pub use trace::{end_text, step_text};
