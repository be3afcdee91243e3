//! What is told while connections are served, in lines.
ghost use Rattle.std.specs.Prelude.{◌≡◌, ◌++◌};
ghost use Rattle.clear_server.specs.Told.{Writes, WritesLines, end_lines, ends, failing_lines};
ghost use Rattle.clear_server.specs.Told.{line_text, written_by};

use clear_http::serve::{Fault, write_all};
use clear_wire::counted::Counted;
use std::io::Write;

/// Writes a text, or a front of it where a write fails.
pub fn write_front<E: Write>(errors: &mut Counted<E>, text: &[u8])
    ensures { Writes text.now
        (written_by E.contents errors.old) (written_by E.contents errors.new) }
{
    let _ = write_all(errors, text);
}

/// Tells how a connection ended, and whether the office failed in it.
pub(crate) fn tell<E: Write>(
    errors: &mut Counted<E>,
    end: &Result<(), Fault>,
    before: bool,
    after: bool,
)
    ensures { WritesLines (end_lines end.now ++ failing_lines before after)
        (written_by E.contents errors.old) (written_by E.contents errors.new) }
{
    tell_end(errors, end);
    tell_failing(errors, before, after);
}

// Tells why a connection ended, if it wasn't served to its end.
fn tell_end<E: Write>(errors: &mut Counted<E>, end: &Result<(), Fault>)
    ensures { WritesLines (end_lines end.now)
        (written_by E.contents errors.old) (written_by E.contents errors.new) }
{
    if let Err(fault) = end {
        write_front(errors, end_line(*fault));
    }
}

fn end_line(fault: Fault) -> &'static [u8]
    ensures { result.now ≡ line_text (ends fault) }
{
    match fault {
        Fault::Memory => b"rule 40 Memory\n",
        Fault::Read | Fault::Write | Fault::Reads => b"fault net\n",
    }
}

// Tells that an office has failed which hadn't before.
fn tell_failing<E: Write>(errors: &mut Counted<E>, before: bool, after: bool)
    ensures { WritesLines (failing_lines before after)
        (written_by E.contents errors.old) (written_by E.contents errors.new) }
{
    if after && !before {
        write_front(errors, b"rule 41 Store\n");
    }
}
