//! Where bytes are no TOML document, and why.
//!
//! It has no contract, since that of the kit's reader says of the place only that it is within the bytes,
//! and of the message nothing. `Seen` keeps that it stays in one line, and tests on real files compare it.

use crate::seen::Seen;
use std::alloc::{AllocError, Global};
use toml::de::Error;

// Where the bytes are no document.
pub(crate) fn no_document(alloc: Global, bytes: &[u8], error: &Error) -> Result<Seen, AllocError> {
    let Some(span) = error.span() else {
        return Err(AllocError);
    };
    let place = place_behind(&bytes[..span.start.min(bytes.len())]);
    let line = place.line.to_string(alloc)?;
    let column = place.column.to_string(alloc)?;
    let here = [
        "line ",
        line.as_str(),
        ", column ",
        column.as_str(),
        ": ",
        error.message(),
    ];
    Seen::new(alloc, &here, &[])
}

// A line and a column, both from 1.
#[derive(Clone, Copy)]
struct Place {
    line: usize,
    column: usize,
}

// The place behind these bytes; a column counts characters.
fn place_behind(before: &[u8]) -> Place {
    let mut line = 1usize;
    let mut column = 1usize;
    for byte in before {
        if *byte == b'\n' {
            line = line.saturating_add(1);
            column = 1;
        } else if *byte & 0xC0 != 0x80 {
            column = column.saturating_add(1);
        }
    }
    Place { line, column }
}
