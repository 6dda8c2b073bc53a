ghost use Rattle.std.specs.Prelude.{◌≡◌, IsSome};
ghost use Rattle.pl_worker.specs.Crew.{IsIn, AreIn, CrewWorks, HasWorked};
ghost use Rattle.pl_worker.specs.Ends.{end_of};

use crate::post::{Crew, Post};
use crate::why::{Reasons, Why};
use crate::worker::work;
use core::thread::Stack;
use pl_base::Clock;
use pl_listener::Listener;
use pl_sessions::Desk;
use std::alloc::Global;
use std::snapshot::Snapshot;
use std::sync::Wait;
use std::thread;
use std::thread::{Promise, Threads};

/// A post that a worker left, and why.
#[derive(Drop)]
struct Worked<D, L, C> {
    post: Post<D, L, C>,
    reason: Why,
}

/// Two of them.
#[derive(Drop)]
struct Pair<D, L, C> {
    one: Worked<D, L, C>,
    two: Worked<D, L, C>,
}

/// Four posts that workers left, and why each did.
#[derive(Drop)]
pub struct Round<D, L, C> {
    pub crew: Crew<D, L, C>,
    pub reasons: Reasons,
}

// What a worker leaves that began at this post.
#[derive(Drop)]
struct FromPost<D, L, C> {
    post: Snapshot<Post<D, L, C>>,
}

impl<D: Desk, L: Listener, C: Clock> Promise<Worked<D, L, C>> for FromPost<D, L, C> {
    ghost kept_by = { λ from left. HasWorked C.coming L.tells D.acts from.post.value left };
}

// What two workers leave that began at these posts.
#[derive(Drop)]
struct FromTwo<D, L, C> {
    one: Snapshot<Post<D, L, C>>,
    two: Snapshot<Post<D, L, C>>,
}

impl<D: Desk, L: Listener, C: Clock> Promise<Pair<D, L, C>> for FromTwo<D, L, C> {
    ghost kept_by = { λ from left. HasWorked C.coming L.tells D.acts from.one.value left.one
        × HasWorked C.coming L.tells D.acts from.two.value left.two };
}

// What four workers leave that began at these posts, where they aren't started again.
#[derive(Drop)]
struct FromCrew<D, L, C> {
    crew: Snapshot<Crew<D, L, C>>,
}

impl<D: Desk, L: Listener, C: Clock> Promise<Round<D, L, C>> for FromCrew<D, L, C> {
    ghost kept_by = { λ from left.
        CrewWorks C.coming L.tells D.acts from.crew.value left.reasons left.crew
        × IsSome (end_of left.reasons) };
}

/// Four workers at once, each at a post of its own. Where all four found the door closed, without
/// an accepted shutdown, a fault of the listener, or want of memory, they are started again, and
/// each goes on where it was.
///
/// Each works in a thread with a stack of 8 MiB. Where a thread can't be made, its work is done
/// behind the other work of the thread that asked for it, with the stack of that one: no post is
/// lost, and the reasons are those of the workers as ever.
pub fn serve_by_four<
    R: Threads + Wait + Sync,
    D: Desk + Drop + Send,
    L: Listener + Drop + Send,
    C: Clock + Drop + Send,
>(rt: &R, alloc: Global, crew: Crew<D, L, C>) -> Round<D, L, C>
    requires { AreIn C.coming L.tells crew }
    ensures works { CrewWorks C.coming L.tells D.acts crew result.reasons result.crew }
    ensures ends { IsSome (end_of result.reasons) }
{
    thread::scope(
        thread::scope_env(),
        rt,
        move |scope| -> Round<D, L, C>
            requires { AreIn C.coming L.tells crew }
            ensures works { CrewWorks C.coming L.tells D.acts crew result.reasons result.crew }
            ensures ends { IsSome (end_of result.reasons) }
        {
            let from = FromCrew {
                crew: Snapshot::of(&crew),
            };
            let begun = deep_stack().spawn_scoped_with(
                scope,
                from,
                move || -> Round<D, L, C>
                    requires { AreIn C.coming L.tells crew }
                { in_rounds(rt, alloc, crew) },
            );
            match begun {
                Ok(thread) => thread.join(rt),
                Err(refused) => (refused.value)(),
            }
        },
    )
}

// The stack of a thread that works: twice what the deepest template takes.
fn deep_stack() -> Stack {
    Stack::new().stack_size(0x80_0000)
}

// Rounds of four workers, until one ends otherwise than by finding the door closed.
fn in_rounds<
    R: Threads + Wait + Sync,
    D: Desk + Drop + Send,
    L: Listener + Drop + Send,
    C: Clock + Drop + Send,
>(rt: &R, alloc: Global, crew: Crew<D, L, C>) -> Round<D, L, C>
    requires { AreIn C.coming L.tells crew }
    ensures works { CrewWorks C.coming L.tells D.acts crew result.reasons result.crew }
    ensures ends { IsSome (end_of result.reasons) }
{
    let mut posts = crew;
    for _ in rt.forever() {
        let Round {
            crew: back,
            reasons,
        } = four_at_once(rt, alloc, posts);
        if reasons.end().is_some() {
            return Round {
                crew: back,
                reasons,
            };
        }
        posts = back;
    }
    unreachable!()
}

// Four workers at once, until each of them ended.
fn four_at_once<
    R: Threads + Wait + Sync,
    D: Desk + Drop + Send,
    L: Listener + Drop + Send,
    C: Clock + Drop + Send,
>(rt: &R, alloc: Global, crew: Crew<D, L, C>) -> Round<D, L, C>
    requires { AreIn C.coming L.tells crew }
    ensures { CrewWorks C.coming L.tells D.acts crew result.reasons result.crew }
{
    let Crew {
        first,
        second,
        third,
        fourth,
    } = crew;
    let (front, back) = twice_two(rt, alloc, first, second, third, fourth);
    round_of(front, back)
}

// Two workers and two more at once.
fn twice_two<
    R: Threads + Wait + Sync,
    D: Desk + Drop + Send,
    L: Listener + Drop + Send,
    C: Clock + Drop + Send,
>(
    rt: &R,
    alloc: Global,
    first: Post<D, L, C>,
    second: Post<D, L, C>,
    third: Post<D, L, C>,
    fourth: Post<D, L, C>,
) -> (Pair<D, L, C>, Pair<D, L, C>)
    requires first_in { IsIn C.coming L.tells first }
    requires second_in { IsIn C.coming L.tells second }
    requires third_in { IsIn C.coming L.tells third }
    requires fourth_in { IsIn C.coming L.tells fourth }
    ensures first { HasWorked C.coming L.tells D.acts first result.0.one }
    ensures second { HasWorked C.coming L.tells D.acts second result.0.two }
    ensures third { HasWorked C.coming L.tells D.acts third result.1.one }
    ensures fourth { HasWorked C.coming L.tells D.acts fourth result.1.two }
{
    thread::scope(
        thread::scope_env(),
        rt,
        move |scope| -> (Pair<D, L, C>, Pair<D, L, C>)
            requires first_in { IsIn C.coming L.tells first }
            requires second_in { IsIn C.coming L.tells second }
            requires third_in { IsIn C.coming L.tells third }
            requires fourth_in { IsIn C.coming L.tells fourth }
            ensures first { HasWorked C.coming L.tells D.acts first result.0.one }
            ensures second { HasWorked C.coming L.tells D.acts second result.0.two }
            ensures third { HasWorked C.coming L.tells D.acts third result.1.one }
            ensures fourth { HasWorked C.coming L.tells D.acts fourth result.1.two }
        {
            let from = FromTwo {
                one: Snapshot::of(&first),
                two: Snapshot::of(&second),
            };
            let begun = deep_stack().spawn_scoped_with(
                scope,
                from,
                move || -> Pair<D, L, C>
                    requires one_in { IsIn C.coming L.tells first }
                    requires two_in { IsIn C.coming L.tells second }
                { two_at_once(rt, alloc, first, second) },
            );
            let back = two_at_once(rt, alloc, third, fourth);
            match begun {
                Ok(thread) => (thread.join(rt), back),
                Err(refused) => ((refused.value)(), back),
            }
        },
    )
}

// Two workers at once.
fn two_at_once<
    R: Threads + Wait + Sync,
    D: Desk + Drop + Send,
    L: Listener + Drop + Send,
    C: Clock + Drop + Send,
>(rt: &R, alloc: Global, one: Post<D, L, C>, two: Post<D, L, C>) -> Pair<D, L, C>
    requires one_in { IsIn C.coming L.tells one }
    requires two_in { IsIn C.coming L.tells two }
    ensures one { HasWorked C.coming L.tells D.acts one result.one }
    ensures two { HasWorked C.coming L.tells D.acts two result.two }
{
    thread::scope(
        thread::scope_env(),
        rt,
        move |scope| -> Pair<D, L, C>
            requires one_in { IsIn C.coming L.tells one }
            requires two_in { IsIn C.coming L.tells two }
            ensures one { HasWorked C.coming L.tells D.acts one result.one }
            ensures two { HasWorked C.coming L.tells D.acts two result.two }
        {
            let from = FromPost {
                post: Snapshot::of(&one),
            };
            let begun = deep_stack().spawn_scoped_with(
                scope,
                from,
                move || -> Worked<D, L, C>
                    requires { IsIn C.coming L.tells one }
                { work_at(rt, alloc, one) },
            );
            let two = work_at(rt, alloc, two);
            match begun {
                Ok(thread) => Pair {
                    one: thread.join(rt),
                    two,
                },
                Err(refused) => Pair {
                    one: (refused.value)(),
                    two,
                },
            }
        },
    )
}

// A worker at its post.
fn work_at<R: Wait, D: Desk, L: Listener, C: Clock>(
    rt: &R,
    alloc: Global,
    post: Post<D, L, C>,
) -> Worked<D, L, C>
    requires { IsIn C.coming L.tells post }
    ensures { HasWorked C.coming L.tells D.acts post result }
{
    let Post {
        mut desk,
        mut door,
        mut clock,
    } = post;
    let reason = work(rt, alloc, &mut desk, &mut door, &mut clock);
    Worked {
        post: Post { desk, door, clock },
        reason,
    }
}

// The four posts, and why each was left.
fn round_of<D, L, C>(front: Pair<D, L, C>, back: Pair<D, L, C>) -> Round<D, L, C>
    ensures first { (result.crew.first ≡ front.one.post)
        × (result.reasons.first ≡ front.one.reason) }
    ensures second { (result.crew.second ≡ front.two.post)
        × (result.reasons.second ≡ front.two.reason) }
    ensures third { (result.crew.third ≡ back.one.post)
        × (result.reasons.third ≡ back.one.reason) }
    ensures fourth { (result.crew.fourth ≡ back.two.post)
        × (result.reasons.fourth ≡ back.two.reason) }
{
    let Pair {
        one: Worked {
            post: first,
            reason: why_first,
        },
        two: Worked {
            post: second,
            reason: why_second,
        },
    } = front;
    let Pair {
        one: Worked {
            post: third,
            reason: why_third,
        },
        two: Worked {
            post: fourth,
            reason: why_fourth,
        },
    } = back;
    Round {
        crew: Crew {
            first,
            second,
            third,
            fourth,
        },
        reasons: Reasons {
            first: why_first,
            second: why_second,
            third: why_third,
            fourth: why_fourth,
        },
    }
}
