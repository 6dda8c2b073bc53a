ghost use Rattle.std.specs.Prelude.{◌≡◌, length};
ghost use Rattle.pl_fields.specs.Fields.{text, IsShort};
ghost use Rattle.pl_fields.specs.Checks.{argument, digest, file_key, resource_key, IsArgument};
ghost use Rattle.pl_digests.specs.Digests.{IsDigest};
ghost use Rattle.pl_fields.specs.Checks.{IsFileKey, IsShortArgument, IsShortFileKey};
ghost use Rattle.pl_fields.specs.Checks.{IsZone};
ghost use Rattle.pl_fields.specs.Fields.{IsText};
ghost use Rattle.pl_fields.specs.WaysOfKeys.{argument_one_way, digest_one_way, file_key_one_way};
ghost use Rattle.pl_fields.specs.WaysOfKeys.{resource_key_one_way, zone_one_way};

use crate::bytes::piece_at;
use crate::fault::DecodeFault;
use crate::field::{Field, Written};
use crate::texts::RawSlice;
use pl_base::{Argument, Digest, FileKey, Kind, Memory, ResourceKey, Text};
use pl_checks::{Zone, ZoneFault, zone_of};
use pl_digests::{digest_in, hex_of};
use std::alloc::Global;

impl Written for FileKey {
    ghost spelled = { file_key };

    ghost short = { IsShortFileKey };

    ghost fits = { IsFileKey };

    fn size(&self) -> usize {
        (&self.repo, (&self.git_ref, &self.path)).size()
    }

    fn put(&self, out: &mut Vec<u8>) -> Result<(), Memory> {
        (&self.repo, (&self.git_ref, &self.path)).put(out)
    }
}

impl Field for FileKey {
    fn read(alloc: Global, bytes: &[u8]) -> Result<(FileKey, &[u8]), DecodeFault> {
        let ((repo, (git_ref, path)), rest) = <(Text, (Text, Text))>::read(alloc, bytes)?;
        let key = FileKey {
            repo,
            git_ref,
            path,
        };
        Ok((key, rest))
    }

    ghost one_way = { file_key_one_way };
}

impl Written for ResourceKey {
    ghost spelled = { resource_key };

    ghost short = { λ key. Unit {0} × IsShort key.name };

    ghost fits = { λ key. Unit {0} × IsText key.name };

    fn size(&self) -> usize {
        (self.kind, &self.name).size()
    }

    fn put(&self, out: &mut Vec<u8>) -> Result<(), Memory> {
        (self.kind, &self.name).put(out)
    }
}

impl Field for ResourceKey {
    fn read(alloc: Global, bytes: &[u8]) -> Result<(ResourceKey, &[u8]), DecodeFault> {
        let ((kind, name), rest) = <(Kind, Text)>::read(alloc, bytes)?;
        Ok((ResourceKey { kind, name }, rest))
    }

    ghost one_way = { resource_key_one_way };
}

impl Written for Argument {
    ghost spelled = { argument };

    ghost short = { IsShortArgument };

    ghost fits = { IsArgument };

    fn size(&self) -> usize {
        (&self.name, &self.text).size()
    }

    fn put(&self, out: &mut Vec<u8>) -> Result<(), Memory> {
        (&self.name, &self.text).put(out)
    }
}

impl Field for Argument {
    fn read(alloc: Global, bytes: &[u8]) -> Result<(Argument, &[u8]), DecodeFault> {
        let ((name, text), rest) = <(Text, Text)>::read(alloc, bytes)?;
        Ok((Argument { name, text }, rest))
    }

    ghost one_way = { argument_one_way };
}

/// A digest: its 64 hexadecimal digits in lower case, as a text.
impl Written for Digest {
    ghost spelled = { digest };

    ghost short = { λ _. Unit {0} };

    ghost fits = { IsDigest };

    fn size(&self) -> usize {
        let text = hex_of(self);
        let bytes = text.as_slice();
        RawSlice { bytes }.size()
    }

    fn put(&self, out: &mut Vec<u8>) -> Result<(), Memory> {
        let text = hex_of(self);
        let bytes = text.as_slice();
        RawSlice { bytes }.put(out)
    }
}

impl Field for Digest {
    fn read(_alloc: Global, bytes: &[u8]) -> Result<(Digest, &[u8]), DecodeFault> {
        let Some((piece, rest)) = piece_at(bytes) else {
            return Err(DecodeFault::Torn);
        };
        match digest_in(piece) {
            Some(digest) => Ok((digest, rest)),
            None => Err(DecodeFault::Torn),
        }
    }

    ghost one_way = { digest_one_way };
}

/// A zone: its text.
impl Written for Zone {
    ghost spelled = { text };

    ghost short = { IsShort };

    ghost fits = { IsZone };

    fn size(&self) -> usize {
        self.text().size()
    }

    fn put(&self, out: &mut Vec<u8>) -> Result<(), Memory> {
        // A zone whose clocks show something has a text that names it.
        let _shown = self.local_at(0);
        self.text().put(out)
    }
}

impl Field for Zone {
    fn read(alloc: Global, bytes: &[u8]) -> Result<(Zone, &[u8]), DecodeFault> {
        let (text, rest) = Text::read(alloc, bytes)?;
        match zone_of(alloc, &text) {
            Ok(zone) => Ok((zone, rest)),
            Err(ZoneFault::Unreadable) => Err(DecodeFault::Torn),
            Err(ZoneFault::Memory) => Err(DecodeFault::Memory),
        }
    }

    ghost one_way = { zone_one_way };
}
