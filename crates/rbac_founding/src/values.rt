//! What stands at the keys of a founding file.
use toml::Value;

/// The values of a document whose keys are right: numbers, arrays of texts, an array of pairs of texts, and a text.
#[derive(Drop)]
pub(crate) struct Entries<'d> {
    pub(crate) members: i64,
    pub(crate) clock: i64,
    pub(crate) sent_limit: i64,
    pub(crate) operations: &'d [Value],
    pub(crate) objects: &'d [Value],
    pub(crate) permissions: &'d [Value],
    pub(crate) hierarchy: &'d str,
}
