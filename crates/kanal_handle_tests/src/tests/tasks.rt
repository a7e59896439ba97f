//! Futures and the stream, of the handles for tasks.
mod each;
mod forgotten;
pub mod given;
mod prefer;
mod send_all;
mod streams;
mod threads;
mod waits;
mod wakes;
