ghost use Rattle.std.specs.Prelude.{◌≡◌, ◌++◌, OnOk};
ghost use Rattle.pl_fields.specs.Fields.{text, IsShort, IsText};
ghost use Rattle.pl_fields.specs.WaysOfFields.{raw_one_way, text_one_way};

use crate::bytes::piece_at;
use crate::fault::DecodeFault;
use crate::field::{Field, Written};
use pl_base::{Bytes, List, Memory, Text};
use std::alloc::Global;

/// Puts a text's length and its bytes.
#[tactic(auto, unfolding(crate::specs::Fields::text, crate::specs::Fields::count))]
fn put_text(bytes: &[u8], out: &mut Vec<u8>) -> Result<(), Memory>
    requires { IsShort bytes.now }
    ensures { OnOk result (out.new.items ≡ out.old.items ++ text bytes.now) }
{
    out.extend_from_slice(&(bytes.len() as u32).to_be_bytes())?;
    out.extend_from_slice(bytes)?;
    Ok(())
}

/// Any bytes, which needn't be UTF-8, as a text: their length, then they themselves.
#[derive(Debug, Drop)]
pub struct Raw {
    pub bytes: Bytes,
}

/// The same bytes, lent.
#[derive(Clone, Copy, Debug)]
pub struct RawSlice<'b> {
    pub bytes: &'b [u8],
}

impl Written for RawSlice<'_> {
    ghost spelled = { λ raw. text raw.bytes.now };

    ghost short = { λ raw. IsShort raw.bytes.now };

    ghost fits = { λ raw. IsShort raw.bytes.now };

    #[tactic(auto, unfolding(crate::specs::Fields::text, crate::specs::Fields::count))]
    fn size(&self) -> usize {
        self.bytes.len().saturating_add(4)
    }

    fn put(&self, out: &mut Vec<u8>) -> Result<(), Memory> {
        put_text(self.bytes, out)
    }
}

impl Written for Raw {
    ghost spelled = { λ raw. text raw.bytes };

    ghost short = { λ raw. IsShort raw.bytes };

    ghost fits = { λ raw. IsShort raw.bytes };

    #[tactic(auto, unfolding(crate::specs::Fields::text, crate::specs::Fields::count))]
    fn size(&self) -> usize {
        self.bytes.len().saturating_add(4)
    }

    fn put(&self, out: &mut Vec<u8>) -> Result<(), Memory> {
        put_text(self.bytes.as_slice(), out)
    }
}

impl Field for Raw {
    fn read(alloc: Global, bytes: &[u8]) -> Result<(Raw, &[u8]), DecodeFault> {
        let Some((piece, rest)) = piece_at(bytes) else {
            return Err(DecodeFault::Torn);
        };
        let bytes = List::from_slice(alloc, piece)?;
        Ok((Raw { bytes }, rest))
    }

    ghost one_way = { raw_one_way };
}

/// UTF-8 text: its length, then its bytes.
impl Written for Text {
    ghost spelled = { text };

    ghost short = { IsShort };

    ghost fits = { IsText };

    #[tactic(auto, unfolding(crate::specs::Fields::text, crate::specs::Fields::count))]
    fn size(&self) -> usize {
        self.len().saturating_add(4)
    }

    fn put(&self, out: &mut Vec<u8>) -> Result<(), Memory> {
        self.each_is_utf8();
        put_text(self.as_bytes(), out)
    }
}

impl Field for Text {
    fn read(alloc: Global, bytes: &[u8]) -> Result<(Text, &[u8]), DecodeFault> {
        let Some((piece, rest)) = piece_at(bytes) else {
            return Err(DecodeFault::Torn);
        };
        match str::from_utf8(piece) {
            Ok(text) => Ok((Text::from_str(alloc, text)?, rest)),
            Err(_) => Err(DecodeFault::Torn),
        }
    }

    ghost one_way = { text_one_way };
}
