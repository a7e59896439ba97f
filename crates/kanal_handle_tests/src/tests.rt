//! The tests of the handles by what they show, those of the pool, and what they share.
mod asked;
mod calls;
mod conversions;
mod counted;
mod drops;
mod given;
mod limits;
mod pool;
mod states;
mod tasks;
mod texts;
mod threads;
mod timed;
