/// Why bytes are no message, after which the link ends.
#[derive(Clone, Copy, Debug, PartialEq, Eq)]
pub enum HttpFault {
    /// No continuation of the bytes begins with a head; or a head has Transfer-Encoding, two
    /// Content-Lengths, or one that isn't 1 to 10 digits: 400 `head.bad`.
    HeadBad,
    /// No head is whole in the first 16,384 bytes, or a 65th header line is: 431 `head.large`.
    HeadLarge,
    /// A PUT or POST without Content-Length: 411 `length.missing`.
    LengthMissing,
    /// A Content-Length over 262,144: 413 `body.large`.
    BodyLarge,
}
