//! What a world is founded with: a founding file is read as a group and a vocabulary, and there is a sample.
#![tactic(auto)]

mod document;
mod entries;
mod founding;
pub mod limits;
mod names;
mod reading;
mod refusal;
mod sample;
mod stream;
mod values;
mod version;

pub use founding::Founding;
pub use reading::read_founding;
pub use refusal::{FoundingRefusal, StreamRefusal};
pub use sample::sample_founding;
pub use stream::read_founding_from;
