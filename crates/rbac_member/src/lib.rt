//! One member of a group: it sends what its callers submit, receives what the others send, holds all of it back, and delivers
//! it to its policy in stamp order.
#![tactic(auto)]

mod member;
mod refusal;

pub use member::Member;
pub use rbac_words::Record;
pub use refusal::{FoundRefusal, OwnRefusal, ReceiveRefusal, SubmitRefusal};
