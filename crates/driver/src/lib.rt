//! The whole program `afx`, over borrowed files and writers.

#![tactic(auto)]

pub mod act;
mod answered;
mod as_object;
mod doing;
mod handing;
mod inspecting;
mod loaded;
mod more;
mod opening;
mod performed;
mod performing;
mod refusal;
mod reporting;
mod said;
mod several;
mod source;
pub mod terminal;
pub mod ticker;
mod tracing;
mod trying;

pub use files::file_source;
pub use printing::progress;
pub use test_and_bench::{clock, folders};
