//! What is told of a question, and the verdict.

/// What a command would be answered.
#[derive(Clone, Copy, Debug, PartialEq, Eq, Drop)]
pub enum Verdict {
    /// It would be done, or answered, and a check granted.
    Allowed,
    /// A check would be refused.
    Refused,
    /// It would be denied.
    Denied,
}

/// What a command would be answered, and why, as a text of some lines.
#[derive(Drop)]
pub struct Explanation {
    pub verdict: Verdict,
    pub text: Vec<u8>,
}
