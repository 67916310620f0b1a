//! What a running member keeps under its lock, and what its callers hold: rows on which the members show what they sent and
//! delivered, nodes, passes with their tickets, and an audit of all nodes. Nothing here takes a lock or waits.
#![tactic(auto)]

mod auditing;
mod group_name;
mod node;
mod pass;
mod publishing;
mod refusal;
mod report;
mod rows;

pub use auditing::audit;
pub use group_name::GroupName;
pub use node::Node;
pub use pass::{Pass, Receipt, Ticket};
pub use refusal::{MeetRefusal, NodeRefusal, PublishRefusal, ServiceRefusal};
pub use report::{Audit, AuditRefusal};
pub use rows::Rows;
