use pl_base::{Memory, Text};

/// Writes a line of these two texts.
pub fn write_line(out: &mut Text, front: &str, rest: &str) -> Result<(), Memory> {
    out.push_str(front)?;
    out.push_str(rest)?;
    out.push_str("\n")
}

/// Writes `yes` or `no`.
pub fn write_whether(out: &mut Text, holds: bool) -> Result<(), Memory> {
    write_line(out, if holds { "yes" } else { "no" }, "")
}
