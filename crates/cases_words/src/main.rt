//! Reads cases of words: command lines, names, paths of templates, heads of HTTP messages and lines
//! of refusals, and writes the answer to each. The form of the cases stands at their head.
#![tactic(auto)]

mod asks;
mod commands;
mod heads;
mod lines;
mod names;
mod paths;
mod plain;
mod refusals;
mod scans;

use crate::asks::answer_all;
use pl_base::Text;
use std::io;

fn main(rt: HostRuntime) -> io::Result<()> {
    let cases = io::read_to_string(rt.alloc(), rt.reader())?;
    let mut out = Text::new(rt.alloc());
    if answer_all(rt.alloc(), &mut out, cases.as_str()).is_err() {
        return Err(io::Error::from(io::ErrorKind::OutOfMemory));
    }
    print!(rt; "{}", out.as_str())
}
