//! The tests, and what they share.
mod given;
mod history;
mod shared;
