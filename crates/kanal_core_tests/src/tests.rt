//! The tests of the core and of the cell, and what they share.
mod cell;
mod given;
mod internal;
mod waits;
