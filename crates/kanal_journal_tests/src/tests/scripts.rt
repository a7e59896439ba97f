//! Tests of a script's way from its bytes to the printed answer, and of a whole history.
mod devices;
mod faults;
mod journals;
mod rows;
mod unreadable;
