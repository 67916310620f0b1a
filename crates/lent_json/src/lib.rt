//! Values of JSON whose texts are lent by the text that they are read from, and take no memory of their own. What a value stands for is
//! what `serde_json` reads of the same text.
#![tactic(auto)]

mod looking;
mod numbers;
mod range;
mod reading;

pub use json::{Scratch, Value};
pub use looking::{as_array, as_object, as_str, as_u64, get, has_only, is_object, is_string};
pub use reading::{Unread, read};
