//! The examples of the crate's documentation on the handles for tasks, with their stated values.
mod calls;
mod conversions;
