//! Pictures of a trace: a timeline as SVG, and spans for the trace viewers of browsers.

#![tactic(auto)]

mod arrows;
mod bars;
mod brackets;
mod busy;
pub mod chrome;
pub mod elements;
mod frame;
mod heading;
mod legend;
mod sheet;
pub mod statements;
pub mod timeline;
