//! Tests of the calls with ample memory, of those of another language and of those over values (`rbac_embedded`): what each of them
//! answers, and each status of a policy's calls but that of memory.

mod clerk;
mod holders;
mod members;
mod monitors;
mod policies;
