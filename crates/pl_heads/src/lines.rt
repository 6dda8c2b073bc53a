ghost use Rattle.std.specs.Prelude.{◌≡◌, ◌<◌, MatchOption};
ghost use Rattle.pl_heads.specs.Lines.{IsCut, line_limit, lines_behind};
ghost use Rattle.pl_heads.specs.Tally.{after_byte};

/// The line end of the 65th header line, where a head has one, is this one behind the line ends at
/// the front.
const LINE_LIMIT: usize = 66;

/// Lines so far: whether one is begun, and how many have ended since.
#[derive(Clone, Copy, Debug)]
pub(crate) struct Tally {
    pub begun: bool,
    pub lines: usize,
}

/// The tally behind one byte more.
fn after_byte(tally: Tally, byte: u8) -> Tally
    requires { tally.lines < line_limit }
    ensures { result ≡ after_byte tally byte }
{
    match byte {
        b'\n' => Tally {
            begun: tally.begun,
            lines: if tally.begun {
                tally.lines + 1
            } else {
                tally.lines
            },
        },
        b'\r' => tally,
        _ => Tally {
            begun: true,
            lines: tally.lines,
        },
    }
}

/// Where the 66th line ends, not counting the line ends at the front.
pub(crate) fn cut(bytes: &[u8]) -> Option<usize>
    ensures { MatchOption result (lines_behind bytes.now < line_limit) (IsCut bytes.now) }
{
    let mut tally = Tally {
        begun: false,
        lines: 0,
    };
    for (at, byte) in bytes.iter().enumerate() {
        tally = after_byte(tally, *byte);
        if tally.lines == LINE_LIMIT {
            return Some(at + 1);
        }
    }
    None
}
