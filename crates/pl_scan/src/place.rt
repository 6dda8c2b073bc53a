/// Where bytes end that begin a head (RFC 9112, sections 2 to 5). `fields` is how many header lines
/// are whole.
#[derive(Clone, Copy, Debug, PartialEq, Eq)]
pub enum Place {
    /// Behind the empty lines at the front, of which there may be none.
    EmptyLines,
    /// Behind the CR of an empty line.
    EmptyLineReturn,
    /// In the method.
    Method,
    /// In the target, which begins behind so many bytes.
    Target { start: usize },
    /// Behind so many bytes of `HTTP/1.`.
    Version { count: usize },
    /// Behind the version.
    StartLine,
    /// Behind the CR of the start line.
    StartLineReturn,
    /// Behind a whole line.
    Lines { fields: usize },
    /// Behind the CR of the empty line that ends the head.
    LastReturn { fields: usize },
    /// In the name of a header.
    Name { fields: usize },
    /// In the value of a header.
    Value { fields: usize },
    /// Behind the CR of a header line.
    ValueReturn { fields: usize },
}
