//! Tests of the recorded channel: each call of a pass, threads, the lock, and the end of a channel.
mod calls;
mod ends;
mod four;
mod lock;
mod mismatches;
mod parties;
mod rows;
mod states;
mod threads;
mod turns;
