//! The tests of the handles for tasks: each party is a task in a thread of its own.
mod aborts;
mod closed;
mod documentation;
mod drops;
mod flows;
pub mod given;
mod integrity;
mod moved;
mod nothing;
mod small;
