//! The tests, and what they share.
mod given;
mod messages;
mod sync;
mod tasks;
