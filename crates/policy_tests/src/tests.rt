//! What each part of a policy, and the policy, shows its callers.

mod dump;
mod hierarchy;
mod named;
mod policy;
mod reasons;
mod refused_growths;
mod reviews;
mod role_sets;
mod separation;
mod sessions;
