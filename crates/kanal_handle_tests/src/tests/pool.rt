//! Tests of the pool: its rows, its gate, its refusals, and the texts of its error.
mod gates;
mod given;
mod refusals;
mod rows;
mod tally;
mod texts;
mod watching;
