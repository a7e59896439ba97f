//! The tests of the handles for threads.
mod closed;
mod delays;
mod documentation;
mod drains;
mod drops;
mod flows;
pub mod given;
mod integrity;
mod nothing;
mod ring;
mod shared;
