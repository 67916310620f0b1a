//! Laws about policies: functions with an empty body, whose contracts are proved like any other. They are about the definitions
//! of the book alone: that a test tells its definition, and what each command keeps.
#![tactic(auto)]

pub mod authorization;
pub mod inheritance;
pub mod separation;
pub mod soundness;
