//! The handles in several threads: who waits, what ends the wait, and what arrives.
mod counted;
mod crowds;
mod shared;
mod sleeps;
pub mod starts;
mod waits;
