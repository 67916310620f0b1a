//! What members, their groups, founding files and lines show their callers.

mod client_lines;
mod conversations;
mod failing;
mod founding_files;
mod hold_back;
mod links;
mod members;
mod nodes;
mod own_rows;
mod passes;
mod records;
mod refusals;
mod refused_growths;
mod refused_passes;
mod sample;
mod schedule_lines;
mod schedules;
mod shown;
mod stamps;
mod user_limit;
mod words;
mod worlds;
