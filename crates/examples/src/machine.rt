//! The parts of the runtime that a command uses.

use std::rt::Files;
use std::sync::Wait;
use std::thread::Threads;

/// Files, both ends of the standard streams, memory and threads.
pub trait TestMachine: Files + Input + Print + AllocGlobal + Threads + Wait + Sync + Clone + Drop {}

impl<R: Files + Input + Print + AllocGlobal + Threads + Wait + Sync + Clone + Drop> TestMachine
    for R {}
