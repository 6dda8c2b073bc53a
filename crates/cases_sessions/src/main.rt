//! Cases of sessions: what a service answers to messages behind one another, at moments that the
//! cases tell. The form of the cases stands at their head.
#![tactic(auto)]

mod again;
mod asked;
mod message;
mod nobody;
mod outside;
mod told;

use crate::asked::answer_sessions;
use pl_cases::Answers;
use std::io;

fn main(rt: HostRuntime) -> io::Result<()> {
    let cases = io::read_to_string(rt.alloc(), rt.reader())?;
    let mut out = Answers::new(rt.alloc());
    answer_sessions(&rt, rt.alloc(), &mut out, cases.as_str());
    match out.text() {
        Ok(text) => print!(rt; "{text}"),
        Err(_) => Err(io::Error::from(io::ErrorKind::OutOfMemory)),
    }
}
