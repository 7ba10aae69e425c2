//! Requests whose file is read.

use command_line::request::Request;
use std::alloc::Global;

/// A request, and the text of the program that it names.
#[derive(Clone, Copy)]
pub struct Loaded<'l> {
    pub alloc: Global,
    pub request: Request<'l>,
    pub text: &'l str,
}
