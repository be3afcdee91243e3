//! How much a stream may ask for.

/// The longest head, in bytes, from the first one after the dropped empty lines to the end of its
/// empty line.
pub const MAX_HEAD_BYTES: usize = 16_384;

/// How many field lines a head may have: the lines after its first, without the empty one.
pub const MAX_FIELD_LINES: usize = 64;

/// The longest body, in bytes.
pub const MAX_BODY_BYTES: u64 = 1_048_576;

/// How many requests a stream may have.
pub const MAX_REQUESTS: u32 = 1_000;

/// How many times a stream may call its reader.
pub const MAX_READS: u32 = 1_000_000;

/// How many bytes one read asks for. Behind a request fewer are held, or no more than before it.
pub const CHUNK: usize = 4_096;
