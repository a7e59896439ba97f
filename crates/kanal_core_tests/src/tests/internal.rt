//! The core: each public call once, and what no clause shows.
mod buffer;
mod calls;
mod drops;
mod waits;
