//! What is said on an output.
ghost use Rattle.std.specs.Prelude.{◌≡◌, true, IfErr, IfOk, OnErr, OnOk, string_bytes};
ghost use Rattle.std.specs.Io.KnownBytes.{Appends};
ghost use Rattle.clear_wire.specs.Counted.{has_failed, inner};
ghost use Rattle.clear_server.specs.Told.{Writes, written_by};
ghost use Rattle.clear_work.specs.Says.{Puts};

use crate::stop::Stop;
use clear_http::serve::write_all;
use clear_wire::counted::Counted;
use std::io::Write;

/// Writes a text on an output. An error tells that it failed, and a front of the text is there then.
pub fn say<O: Write>(output: &mut Counted<O>, text: &str) -> Result<(), Stop>
    ensures said { OnOk result (Appends (O.contents (inner output.old))
        (O.contents (inner output.new)) text.now) }
    ensures well { OnOk result (has_failed output.new ≡ has_failed output.old) }
    ensures front { OnErr result (Writes text.now
        (written_by O.contents output.old) (written_by O.contents output.new)) }
    ensures why { IfErr result (λ why. (why ≡ Stop.Stream) × (has_failed output.new ≡ true)) }
{
    match write_all(output, text.as_bytes()) {
        Ok(()) => match output.flush() {
            Ok(()) => Ok(()),
            Err(_) => Err(Stop::Stream),
        },
        Err(_) => Err(Stop::Stream),
    }
}

/// Says what there is to say on an output, and ends with a status; or ends for why there is nothing.
pub fn end_by<O: Write>(
    output: &mut Counted<O>,
    said: Result<String, Stop>,
    status: u8,
) -> Result<u8, Stop>
    ensures puts { Puts string_bytes said status
        (written_by O.contents output.old) (written_by O.contents output.new) result }
    ensures status { IfOk result (λ given. given ≡ status) }
{
    match said {
        Ok(text) => match say(output, text.as_str()) {
            Ok(()) => Ok(status),
            Err(stop) => Err(stop),
        },
        Err(stop) => Err(stop),
    }
}
