//! Writing a whole text.
ghost use Rattle.std.specs.Prelude.{OnOk, OnErr};
ghost use Rattle.std.specs.Io.KnownBytes.{Appends};
ghost use Rattle.lp_io.specs.Faults.{CountsFaults};
ghost use Rattle.lp_io.specs.Pieces.{AppendsFront};

use crate::{Failed, Sink};

/// Writes the whole text. Where a write fails, a front of the text was written. It takes no memory.
pub fn put_all<K: Sink>(out: &mut K, text: &[u8]) -> Result<(), Failed>
    ensures whole { OnOk result (Appends (K.taken out.old) (K.taken out.new) text.now) }
    ensures part { OnErr result (AppendsFront (K.taken out.old) (K.taken out.new) text.now) }
    ensures counted { CountsFaults (K.faults out.old) (K.faults out.new) result }
{
    let mut at = 0;
    while at < text.len() {
        at += out.write(&text[at..])?;
    }
    Ok(())
}
