//! Writing a text.
ghost use Rattle.std.specs.Prelude.{◌≡◌, ◌≤◌, OnOk, OnErr};
ghost use Rattle.std.specs.Io.KnownBytes.{Appends};
ghost use Rattle.s390x_tool.specs.Causes.{HasCause};
ghost use Rattle.s390x_tool.specs.Ends.{IsCutShort};

use crate::ends::{Failed, Sink};

/// Writes the text. Each write is given all of it that wasn't taken yet, and once all is taken there is none. It ends with
/// the first write that fails: the sink was then told a prefix of the text, and not all of it.
pub fn write_text<K: Sink>(text: &[u8], sink: &mut K) -> Result<(), Failed>
    ensures ok { OnOk result (Appends (K.told sink.old) (K.told sink.new) text.now) }
    ensures err { OnErr result (IsCutShort (K.told sink.old) (K.told sink.new) text.now) }
    ensures cause { HasCause (K.faults sink.old) (K.faults sink.new) result }
{
    let mut taken = 0;
    while taken < text.len() {
        taken += sink.write(&text[taken..])?;
    }
    Ok(())
}
