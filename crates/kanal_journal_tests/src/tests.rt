//! The tests, and what they share.
mod given;
mod recorded;
mod scripts;
