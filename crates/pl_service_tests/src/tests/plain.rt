//! The rules once more, over plain stages of two resources, by the words of their sentences.

/// A stage that waits or holds; `first` and `second` say which of the two resources it uses.
#[derive(Clone, Copy, Debug)]
pub struct Plain {
    pub run: u64,
    pub position: u32,
    pub pipeline: u8,
    pub name: u8,
    pub latest: bool,
    pub first: bool,
    pub second: bool,
    pub holds: bool,
}

fn shares(left: &Plain, right: &Plain) -> bool {
    (left.first && right.first) || (left.second && right.second)
}

fn is_earlier(left: &Plain, right: &Plain) -> bool {
    if left.run == right.run {
        left.position < right.position
    } else {
        left.run < right.run
    }
}

/// The least run whose eligible stage of this name supersedes an eligible stage.
fn plain_later(stages: &[Plain], stage: &Plain) -> Option<u64> {
    let mut least = None;
    for later in stages {
        let same = later.name == stage.name && later.pipeline == stage.pipeline;
        if stage.latest && !later.holds && same && stage.run < later.run && shares(stage, later) {
            least = match least {
                Some(run) if run < later.run => Some(run),
                _ => Some(later.run),
            };
        }
    }
    least
}

fn waits(stages: &[Plain], stage: &Plain) -> bool {
    !stage.holds && plain_later(stages, stage).is_none()
}

fn is_blocked(stages: &[Plain], stage: &Plain) -> bool {
    let mut blocked = false;
    for other in stages {
        let comes_first = waits(stages, other) && is_earlier(other, stage);
        if (other.holds || comes_first) && shares(other, stage) {
            blocked = true;
        }
    }
    blocked
}

/// The next stage: the least one that waits and isn't blocked.
pub fn plain_next(stages: &[Plain]) -> Option<(u64, u32)> {
    let mut next = None;
    for stage in stages {
        if waits(stages, stage) && !is_blocked(stages, stage) {
            next = match next {
                Some((run, position)) if (run, position) < (stage.run, stage.position) => {
                    Some((run, position))
                }
                _ => Some((stage.run, stage.position)),
            };
        }
    }
    next
}

/// The least superseded stage and the least run that supersedes it.
pub fn plain_superseded(stages: &[Plain]) -> Option<(u64, u32, u64)> {
    let mut told = None;
    for stage in stages {
        if stage.holds {
            continue;
        }
        if let Some(later) = plain_later(stages, stage) {
            told = match told {
                Some((run, position, least)) if (run, position) < (stage.run, stage.position) => {
                    Some((run, position, least))
                }
                _ => Some((stage.run, stage.position, later)),
            };
        }
    }
    told
}
