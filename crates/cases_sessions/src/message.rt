//! Messages as cases write them.

use pl_base::{List, Memory, Moment};
use pl_cases::first_line;
use std::alloc::Global;

/// The moments that a clock tells, one a call.
#[derive(Drop)]
pub struct Moments {
    pub coming: List<Moment>,
    pub last: Moment,
}

impl Moments {
    /// No call; what comes without a moment of its own comes at the first moment of 2024.
    pub fn new(alloc: Global) -> Moments {
        Moments {
            coming: List::new(alloc),
            last: 1_704_067_200,
        }
    }

    /// The moments of one call alone: the one that is told at it.
    pub fn at(&self, alloc: Global, call: usize) -> Result<Moments, Memory> {
        let last = self.coming.get(call).copied().unwrap_or(0);
        let mut coming = List::new(alloc);
        coming.push(last)?;
        Ok(Moments { coming, last })
    }

    /// The same moments once more.
    pub fn again(&self, alloc: Global) -> Result<Moments, Memory> {
        let coming = List::from_slice(alloc, self.coming.as_slice())?;
        Ok(Moments {
            coming,
            last: self.last,
        })
    }

    /// One call more, at the moment that these digits spell, or where there are none at that of the
    /// call before.
    fn push(&mut self, digits: &str) -> Result<(), Memory> {
        self.last = digits.parse::<u64>().unwrap_or(self.last);
        self.coming.push(self.last)
    }
}

/// The bytes of messages, where each of them ends, and the moment of each.
#[derive(Drop)]
pub struct Session {
    pub input: Vec<u8>,
    pub ends: Vec<usize>,
    pub moments: Moments,
}

/// Adds a message: a line `METHOD TARGET TOKEN at MOMENT`, without its last two words at the moment
/// of the message before, without TOKEN by nobody; and below it its body.
pub fn push_message(alloc: Global, session: &mut Session, message: &str) -> Result<(), Memory> {
    let (line, body) = first_line(message);
    let (request, moment) = line.split_once(" at ").unwrap_or((line, ""));
    session.moments.push(moment)?;
    push_head(alloc, &mut session.input, request, body.len())?;
    session.input.extend_from_slice(body.as_bytes())?;
    session.ends.push(session.input.len())?;
    Ok(())
}

fn push_text(bytes: &mut Vec<u8>, text: &str) -> Result<(), Memory> {
    bytes.extend_from_slice(text.as_bytes())?;
    Ok(())
}

fn push_head(
    alloc: Global,
    bytes: &mut Vec<u8>,
    request: &str,
    length: usize,
) -> Result<(), Memory> {
    let (method, rest) = request.split_once(' ').unwrap_or((request, ""));
    let (target, token) = rest.split_once(' ').unwrap_or((rest, ""));
    push_text(bytes, method)?;
    push_text(bytes, " ")?;
    push_text(bytes, target)?;
    push_text(bytes, " HTTP/1.1\r\n")?;
    push_token(bytes, token)?;
    push_length(alloc, bytes, length)?;
    push_text(bytes, "\r\n")
}

fn push_token(bytes: &mut Vec<u8>, token: &str) -> Result<(), Memory> {
    if token.is_empty() {
        return Ok(());
    }
    push_text(bytes, "Authorization: Bearer ")?;
    push_text(bytes, token)?;
    push_text(bytes, "\r\n")
}

fn push_length(alloc: Global, bytes: &mut Vec<u8>, length: usize) -> Result<(), Memory> {
    let digits = length.to_string(alloc)?;
    push_text(bytes, "Content-Length: ")?;
    push_text(bytes, digits.as_str())?;
    push_text(bytes, "\r\n")
}
