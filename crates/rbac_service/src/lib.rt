//! A group of running members: each under a lock of its own with a condition, callers that submit commands and wait for the
//! answers, and, at the end, the nodes out of their locks for an audit.
#![tactic(auto)]

mod courier;
mod gate;
pub mod laws;
mod refusal;
mod service;

pub use courier::{ChannelCourier, Courier, Hint, Wake};
pub use gate::{Gate, Moment, NoGate};
pub use rbac_node::{
    Audit, AuditRefusal, GroupName, MeetRefusal, Node, NodeRefusal, Pass, PublishRefusal, Receipt,
    Rows, ServiceRefusal, Ticket, audit,
};
pub use refusal::{AwaitRefusal, CallRefusal, EnrollRefusal};
pub use service::{PumpEnd, Service};

#[cfg(test)]
mod tests;
#[cfg(test)]
mod thread_tests;
