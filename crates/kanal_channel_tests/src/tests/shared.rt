//! Tests of a shared channel without a history.
mod dropped;
mod ended;
mod held;
mod late;
mod polled;
mod served;
mod timed;
