ghost use Rattle.std.specs.Prelude.{◌≡◌, ◌≤◌, None, ◌↔◌, IfOk, IfSome, IsErrOf, IsSome, OnOk};
ghost use Rattle.std.specs.Prelude.{ℤ};
ghost use Rattle.jiff.specs.ZoneView.{plain_zone};
ghost use Rattle.jiff_core.specs.Calendar.{IsWithin};
ghost use Rattle.jiff_core.specs.Timestamp.{IsOffsetSeconds};
ghost use Rattle.jiff_tz.specs.Zone.{offset_at};
ghost use Rattle.pl_zones.specs.Zones.{instant};
ghost use Rattle.jiff_tz.specs.PosixReader.{read_whole};
ghost use Rattle.pl_zones.specs.Fixed.{fixed_offset};
ghost use Rattle.pl_zones.specs.Zones.{IsClockOf, IsOffsetAt, IsZoneText};
ghost use Rattle.pl_zones.specs.Locals.{IsLocal};

use crate::fixed::fixed_offset;
use crate::local::{Local, shown_at};
use jiff::Timestamp;
use jiff::tz::{Offset, TimeZone};
use pl_base::{ExactCopy, Memory, Moment, Text};
use std::alloc::Global;
use std::fmt;
use std::marker::Model;

/// A time zone by its text. Contracts see it as that text. What `jiff` reads from it isn't kept: the
/// text is short, and a type of `jiff` in this one would be proved with in every crate that holds a
/// zone.
#[derive(Drop)]
pub struct Zone {
    text: Text,
}

impl Model for Zone {
    ghost use Rattle.std.specs.Prelude.{List as list, ℕ};
    ghost use Rattle.std.specs.Coded.{coded_list, coded_ℕ};
    ghost use Rattle.pl_zones.specs.Zones.{IsZoneText};

    ghost Value = { list ℕ };

    ghost coded = { coded_list coded_ℕ };

    ghost view = { λ zone. zone.text };

    ghost invariant = { λ zone. IsZoneText zone.text };
}

/// Why a text names no zone.
#[derive(Clone, Copy, Debug, PartialEq, Eq)]
pub enum ZoneFault {
    /// The text is neither of the first form nor a rule of POSIX's TZ variable.
    Unreadable,
    /// There was no memory for the zone.
    Memory,
}

impl Zone {
    /// The zone's text.
    pub fn text(&self) -> &Text
        ensures { result.now ≡ self.now }
    {
        &self.text
    }

    /// How many seconds the zone's clocks are ahead of UTC at a moment.
    fn offset_at(&self, moment: Moment) -> i32
        requires { moment ≤ 4102444799 }
        ensures value { IsOffsetAt self.now moment result }
        ensures within { IsWithin 93599 result }
    {
        match clock_of(self.text.as_str()) {
            Some(clock) => clock.to_offset(instant_of(moment)).seconds(),
            None => unreachable!(),
        }
    }

    /// What the zone's clocks show at a moment.
    pub fn local_at(&self, moment: Moment) -> Local
        requires { moment ≤ 4102444799 }
        ensures { IsLocal self.now moment result }
    {
        shown_at(moment, self.offset_at(moment))
    }
}

/// By its text.
impl fmt::Debug for Zone {
    fn fmt<W: fmt::Write>(&self, f: &mut fmt::Formatter<W>) -> fmt::Result {
        fmt::Debug::fmt(&self.text, f)
    }
}

impl ExactCopy for Zone {
    fn copy(&self, alloc: Global) -> Result<Zone, Memory> {
        let text = self.text.copy(alloc)?;
        Ok(Zone { text })
    }
}

/// A moment as `jiff`'s instant.
fn instant_of(moment: Moment) -> Timestamp
    requires { moment ≤ 4102444799 }
    ensures { result.nanosecond ≡ instant moment }
{
    match Timestamp::from_second(moment as i64) {
        Ok(instant) => instant,
        Err(_) => unreachable!(),
    }
}

/// The clock that a text names, if it names one.
fn clock_of(text: &str) -> Option<TimeZone<'static>>
    ensures some { IfSome result (λ clock. IsClockOf text.now (plain_zone clock)) }
    ensures is { IsSome result ↔ IsZoneText text.now }
{
    match fixed_offset(text.as_bytes()) {
        Some(seconds) => Some(fixed_clock(seconds)),
        None => TimeZone::posix(text).ok(),
    }
}

/// The clock that is so many seconds ahead of UTC all the year.
fn fixed_clock(seconds: i32) -> TimeZone<'static>
    requires { IsOffsetSeconds seconds }
    ensures { (instant : ℤ) → offset_at (plain_zone result) instant ≡ seconds }
{
    match Offset::from_seconds(seconds) {
        Ok(offset) => TimeZone::fixed(offset),
        Err(_) => unreachable!(),
    }
}

/// The zone that a text names.
///
/// A text of the first form is a fixed offset: it is `UTC`, or three to six ASCII letters, then at
/// most one of `+` and `-`, then one or two digits of at most 24 in value. As in POSIX's TZ
/// variable (IEEE Std 1003.1, XBD 8.3) hours without a sign and with `+` are behind UTC, and hours
/// with `-` are ahead of it. Any other text is read by `jiff` as a rule of that variable.
///
/// Unreadable comes exactly where the text isn't of the first form and `jiff`'s reader of such
/// rules refuses it. Memory comes where there is none for the zone's text.
pub fn zone_of(alloc: Global, text: &Text) -> Result<Zone, ZoneFault>
    ensures ok { IfOk result (λ zone. zone ≡ text.now) }
    ensures readable { OnOk result (IsZoneText text.now) }
    ensures unreadable { IsErrOf result ZoneFault.Unreadable → ¬ IsZoneText text.now }
{
    let Some(_) = clock_of(text.as_str()) else {
        return Err(ZoneFault::Unreadable);
    };
    match text.copy(alloc) {
        Ok(text) => Ok(Zone { text }),
        Err(Memory) => Err(ZoneFault::Memory),
    }
}
