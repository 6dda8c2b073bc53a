//! Texts, flags and numbers.

ghost use Rattle.std.specs.Prelude.{◌≡◌};
ghost use Rattle.pl_bodies.specs.Atoms.{digest_of, flag_of, number_of, small, text_of, zone_in};
ghost use Rattle.pl_bodies.specs.Atoms.{zone_of};
ghost use Rattle.pl_bodies.specs.Meaning.{Gives, Seen, wanted};
ghost use Rattle.pl_trees.specs.Trees.{seen};

use crate::fault::BodyFault;
use crate::field::Field;
use pl_base::{Digest, Text};
use pl_digests::digest_in;
use pl_trees::{Tree, flag_in, number_in, text_in};
use pl_zones::{Zone, ZoneFault};
use std::alloc::Global;

/// The text that a value is. Bad where it is none.
pub(crate) fn word_in<'v>(value: &Tree<'v>) -> Result<&'v str, BodyFault>
    ensures { Seen (λ text. text.now) result (text_of (seen value.now)) }
{
    match text_in(value) {
        Some(text) => Ok(text),
        None => Err(BodyFault::Bad),
    }
}

impl Field for Text {
    ghost meant = { text_of };

    fn read(alloc: Global, value: &Tree<'_>) -> Result<Text, BodyFault> {
        let text = word_in(value)?;
        Ok(Text::from_str(alloc, text)?)
    }
}

impl Field for bool {
    ghost meant = { flag_of };

    fn read(_alloc: Global, value: &Tree<'_>) -> Result<bool, BodyFault> {
        match flag_in(value) {
            Some(flag) => Ok(flag),
            None => Err(BodyFault::Bad),
        }
    }
}

/// A number, where it has four bytes.
fn small(number: u64) -> Result<u32, BodyFault>
    ensures { Gives result (small number) }
{
    if number <= 4_294_967_295 {
        Ok(number as u32)
    } else {
        Err(BodyFault::Bad)
    }
}

impl Field for u32 {
    ghost meant = { number_of };

    fn read(_alloc: Global, value: &Tree<'_>) -> Result<u32, BodyFault> {
        match number_in(value) {
            Some(number) => small(number),
            None => Err(BodyFault::Bad),
        }
    }
}

impl Field for Digest {
    ghost meant = { digest_of };

    fn read(_alloc: Global, value: &Tree<'_>) -> Result<Digest, BodyFault> {
        let text = word_in(value)?;
        match digest_in(text.as_bytes()) {
            Some(digest) => Ok(digest),
            None => Err(BodyFault::Bad),
        }
    }
}

/// The zone that a text names.
#[tactic(auto, unfolding(crate::specs::Atoms::is_zone))]
fn zone_in(alloc: Global, text: &Text) -> Result<Zone, BodyFault>
    ensures { Gives result (zone_in text.now) }
{
    match pl_zones::zone_of(alloc, text) {
        Ok(zone) => Ok(zone),
        Err(ZoneFault::Unreadable) => Err(BodyFault::Bad),
        Err(ZoneFault::Memory) => Err(BodyFault::Memory),
    }
}

impl Field for Zone {
    ghost meant = { zone_of };

    fn read(alloc: Global, value: &Tree<'_>) -> Result<Zone, BodyFault> {
        let text = Text::read(alloc, value)?;
        zone_in(alloc, &text)
    }
}
