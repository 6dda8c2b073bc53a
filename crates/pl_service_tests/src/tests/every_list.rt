use super::plain::{Plain, plain_next, plain_superseded};
use super::stages::stage_of;
use pl_base::Behaviour;
use pl_locks::Contenders;
use std::alloc::{AllocError, Global};
use std::process::Abort;
use std::test::Fail;

/// Runs, positions, pipelines and names of four stages.
const NAMED: [[(u64, u32, u8, u8); 4]; 4] = [
    [(1, 0, 0, 0), (2, 0, 0, 0), (3, 0, 0, 0), (4, 0, 0, 0)],
    [(1, 0, 0, 0), (1, 1, 0, 1), (2, 0, 0, 0), (2, 1, 0, 1)],
    [(1, 5, 0, 0), (2, 0, 1, 0), (3, 4, 0, 0), (3, 3, 0, 1)],
    [(2, 2, 0, 0), (2, 1, 0, 0), (1, 3, 0, 0), (3, 0, 0, 0)],
];

/// So many stages, each with the behaviour and the resources that three bits of the number say.
fn stages_of(
    alloc: Global,
    named: &[(u64, u32, u8, u8)],
    count: usize,
    number: u32,
) -> Result<Vec<Plain>, AllocError> {
    let mut bits = number;
    let mut stages = Vec::new(alloc);
    for (run, position, pipeline, name) in named.iter().copied().take(count) {
        stages.push(Plain {
            run,
            position,
            pipeline,
            name,
            latest: bits % 2 == 1,
            first: bits / 2 % 2 == 1,
            second: bits / 4 % 2 == 1,
            holds: false,
        })?;
        bits /= 8;
    }
    Ok(stages)
}

fn word_of(stage: &Plain) -> &'static str {
    match (stage.first, stage.second) {
        (true, true) => "ab",
        (true, false) => "a",
        (false, true) => "b",
        (false, false) => "",
    }
}

fn enter(
    rt: &impl Abort,
    alloc: Global,
    lists: &mut Contenders,
    stage: &Plain,
) -> Result<(), Fail> {
    let behaviour = if stage.latest {
        Behaviour::RunLatest
    } else {
        Behaviour::Sequential
    };
    let pipeline = if stage.pipeline == 0 { "P" } else { "Q" };
    let name = if stage.name == 0 { "A" } else { "B" };
    let entering = stage_of(
        alloc,
        stage.run,
        stage.position,
        pipeline,
        name,
        behaviour,
        word_of(stage),
    )?;
    assert!(rt; lists.is_new(entering.run, entering.position));
    lists.enter(entering)?;
    Ok(())
}

/// Compares both answers, and holds what is next, until nothing is.
fn hold_all(rt: &impl Abort, lists: &mut Contenders, stages: &mut Vec<Plain>, case: u32) {
    for _ in 0..5 {
        assert_eq!(rt; lists.superseded(), plain_superseded(stages), "list {case}");
        let plain = plain_next(stages);
        let next = lists.next();
        assert_eq!(rt; next, plain, "list {case}");
        let Some((run, position)) = next else {
            return;
        };
        lists.hold(run, position);
        for stage in stages.iter_mut() {
            if stage.run == run && stage.position == position {
                stage.holds = true;
            }
        }
    }
    assert!(rt; false, "list {case}");
}

/// Ends the superseded stage that is told, and the first holder.
fn end_some(lists: &mut Contenders, stages: &mut Vec<Plain>) {
    if let Some((run, position, _)) = lists.superseded() {
        lists.leave(run, position);
        stages.retain(|stage| stage.run != run || stage.position != position);
    }
    if let Some(at) = stages.iter().position(|stage| stage.holds) {
        let holder = stages.remove(at);
        lists.release(holder.run, holder.position);
    }
}

/// Enters some stages and holds what may be held, then enters the others and does so once more, and
/// once again when some have ended.
fn compare(
    rt: &impl Abort,
    alloc: Global,
    stages: &[Plain],
    early: usize,
    case: u32,
) -> Result<(), Fail> {
    let mut lists = Contenders::new(alloc);
    let mut entered = Vec::new(alloc);
    for (at, stage) in stages.iter().enumerate() {
        if at == early {
            hold_all(rt, &mut lists, &mut entered, case);
        }
        enter(rt, alloc, &mut lists, stage)?;
        entered.push(*stage)?;
    }
    hold_all(rt, &mut lists, &mut entered, case);
    end_some(&mut lists, &mut entered);
    hold_all(rt, &mut lists, &mut entered, case);
    Ok(())
}

#[test]
fn agrees_with_the_plain_rules_up_to_four_stages(rt: HostRuntime) -> Result<(), Fail> {
    let alloc = rt.alloc();
    for named in &NAMED {
        for (count, numbers) in [(0usize, 1u32), (1, 8), (2, 64), (3, 512), (4, 4096)] {
            for number in 0..numbers {
                let stages = stages_of(alloc, named, count, number)?;
                for early in 0..count.max(1) {
                    compare(&rt, alloc, &stages, early, number)?;
                }
            }
        }
    }
    Ok(())
}
