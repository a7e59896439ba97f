//! Timed calls: rows with clocks of their own, a deadline that meets a receiver, and the system's
//! clock.
mod clocks;
mod looks;
mod meets;
mod receives;
mod sends;
