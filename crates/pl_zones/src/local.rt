ghost use Rattle.std.specs.Prelude.{◌≡◌, ◌≤◌, ◌/◌, ◌+ℤ◌, pos, neg_ℤ, unsigned_abs};
ghost use Rattle.std.specs.Int.{int_rem_euclid};
ghost use Rattle.jiff_core.specs.Calendar.{IsBetween, IsWithin, weekday_number};
ghost use Rattle.pl_rules.specs.Days.{day_number};
ghost use Rattle.pl_zones.specs.Locals.{IsShown};

use pl_base::Moment;
use pl_rules::Day;

/// The seconds of a day.
const DAY: i64 = 86_400;

/// What a clock shows: the day of the week, and the minute of that day.
#[derive(Clone, Copy, Debug, PartialEq, Eq)]
pub struct Local {
    pub day: Day,
    pub minute: u32,
}

/// What a clock shows at a moment that is so many seconds ahead of UTC.
pub(crate) fn shown_at(moment: Moment, ahead: i32) -> Local
    requires moment { moment ≤ 4102444799 }
    requires ahead { IsWithin 93599 ahead }
    ensures { IsShown moment ahead result }
{
    let second = local_second(moment, ahead);
    let day = weekday_of(second.div_euclid(DAY));
    let minute = minute_of(second);
    Local { day, minute }
}

/// The second that such a clock shows, counted from 1970-01-01 on.
fn local_second(moment: Moment, ahead: i32) -> i64
    requires moment { moment ≤ 4102444799 }
    requires ahead { IsWithin 93599 ahead }
    ensures value { result ≡ pos moment +ℤ ahead }
    ensures within { IsBetween (neg_ℤ (pos 93599)) (pos 4102538398) result }
{
    moment as i64 + ahead as i64
}

/// The minute of its day in which a second lies.
fn minute_of(second: i64) -> u32
    requires { IsBetween (neg_ℤ (pos 93599)) (pos 4102538398) second }
    ensures { result ≡ unsigned_abs (int_rem_euclid second (pos 86400)) / 60 }
{
    second.rem_euclid(DAY) as u32 / 60
}

/// The day of the week of a day by its number: 0 is 1970-01-01, a Thursday.
#[tactic(auto, unfolding(jiff_core::specs::Calendar::weekday_number))]
fn weekday_of(day: i64) -> Day
    requires { IsBetween (neg_ℤ (pos 1000000)) (pos 1000000) day }
    ensures { day_number result ≡ weekday_number day }
{
    match (day + 3).rem_euclid(7) {
        0 => Day::Mon,
        1 => Day::Tue,
        2 => Day::Wed,
        3 => Day::Thu,
        4 => Day::Fri,
        5 => Day::Sat,
        _ => Day::Sun,
    }
}
