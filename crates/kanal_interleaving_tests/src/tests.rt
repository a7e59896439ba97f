//! The tests by what they go through, and what they share.
mod cell;
mod counted;
mod forgotten;
mod given;
mod line;
mod lists;
mod meeting;
mod notices;
mod races;
mod receives;
mod recorded;
mod seals;
mod sync;
mod tasks;
mod watch;
