//! Tests of the hand-over cell: its steps, its drops, threads and wakes.
mod hand_over;
mod steps;
mod wakes;
