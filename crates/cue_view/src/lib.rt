//! What the desk shows: one view, which page and board draw, and its buttons.
//!
//! The view is made by `cue_station` and by nobody else. Here are its words alone: no rule, no clock, no handle.
#![tactic(auto)]

pub mod button;
pub mod late;
mod sight;
pub mod view;
mod whole;
