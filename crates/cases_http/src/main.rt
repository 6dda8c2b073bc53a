//! Reads cases of HTTP: targets and their parts, bodies of requests, whole messages and replies. It
//! writes the answer to each. The form of the cases stands at their head.
#![tactic(auto)]

mod answers;
mod asks;
mod bodies;
mod checks;
mod jsons;
mod messages;
mod plain;
mod replies;
mod requests;
mod settings;
mod targets;
mod words;
mod written;

use crate::answers::Answers;
use crate::asks::answer_all;
use std::io;

fn main(rt: HostRuntime) -> io::Result<()> {
    let cases = io::read_to_string(rt.alloc(), rt.reader())?;
    let mut out = Answers::new(rt.alloc());
    answer_all(rt.alloc(), &mut out, cases.as_str());
    match out.text() {
        Ok(text) => print!(rt; "{text}"),
        Err(_) => Err(io::Error::from(io::ErrorKind::OutOfMemory)),
    }
}
