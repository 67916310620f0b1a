//! What a member sent, and what it took of each other member over numbered links (Lamport 1978).
#![tactic(auto)]

mod inlinks;
mod outbox;
mod refusal;

pub use inlinks::Inlinks;
pub use outbox::Outbox;
pub use refusal::{LinkRefusal, OutboxRefusal};
