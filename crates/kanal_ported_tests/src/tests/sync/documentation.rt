//! The examples of the crate's documentation on the handles for threads, with their stated values.
mod calls;
mod conversions;
mod crowds;
mod drains;
mod questions;
mod timed;
