ghost use Rattle.std.specs.Prelude.{◌≡◌, ◌≤◌, IfOk, OnOk, OnErr, IsErrOf};
ghost use Rattle.std.specs.Io.KnownBytes.{Appends};
ghost use Rattle.hs_port.specs.Causes.{Rose};
ghost use Rattle.exec_main.specs.Streams.{AppendsFront, Reads};
ghost use Rattle.exec_main.specs.declared.streams.Unread.TheVariants.{Failed as ReadFailed, Memory as NoMemory};

use hs_base::{Memory, TEXT_BYTES};
use hs_port::{Failed, Sink, Source};
use std::alloc::Global;

/// The most bytes that are asked for at a time.
const PIECE_BYTES: usize = 4_096;

/// Why an input wasn't read.
#[derive(Clone, Copy, Debug, PartialEq, Eq)]
pub enum Unread {
    Failed,
    Memory,
}

impl From<Failed> for Unread {
    ghost from_gives = { λ _ e. e ≡ ReadFailed };

    fn from(_: Failed) -> Unread {
        Unread::Failed
    }
}

impl From<Memory> for Unread {
    ghost from_gives = { λ _ e. e ≡ NoMemory };

    fn from(_: Memory) -> Unread {
        Unread::Memory
    }
}

/// The bytes of a source to its end, or until they are more than an input may have.
pub fn read_whole<S: Source>(alloc: Global, source: &mut S) -> Result<Vec<u8>, Unread>
    ensures read { IfOk result (λ text. Reads (S.left source.old) (S.left source.new) text.items) }
    ensures later { S.faults source.old ≤ S.faults source.new }
    ensures failed { IsErrOf result Unread.Failed → Rose (S.faults source.old) (S.faults source.new) }
{
    let mut text = Vec::new(alloc);
    let mut piece = [0u8; PIECE_BYTES];
    for turn in 0..TEXT_BYTES + 1 {
        let count = source.read(&mut piece)?;
        if count == 0 {
            return Ok(text);
        }
        text.extend_from_slice(&piece[..count])
            .map_err(Memory::from)?;
        if text.len() > TEXT_BYTES {
            return Ok(text);
        }
    }
    Ok(text)
}

/// Writes all of a text.
pub fn write_whole<K: Sink>(sink: &mut K, text: &[u8]) -> Result<(), Failed>
    ensures all { OnOk result (Appends (K.taken sink.old) (K.taken sink.new) text.now) }
    ensures front { AppendsFront (K.taken sink.old) (K.taken sink.new) text.now }
    ensures later { K.faults sink.old ≤ K.faults sink.new }
    ensures failed { OnErr result (Rose (K.faults sink.old) (K.faults sink.new)) }
{
    let mut at = 0;
    'pieces: while at < text.len() {
        at += sink.write(&text[at..])?;
    }
    Ok(())
}
