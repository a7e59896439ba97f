//! Tests of a channel with one history: each call is by a pass.
mod deadlines;
mod drained;
mod exchange;
mod given;
mod handles;
mod passes;
mod rows;
mod threads;
mod timed;
