//! Bank files, as they came in.
ghost use Rattle.std.specs.Prelude.{◌≡◌};

use std::marker::Model;

/// The bytes of a bank file as they came in, whatever they are: they are judged with the request. A
/// contract sees a list.
#[derive(Drop)]
pub struct BankFile {
    bytes: Vec<u8>,
}

impl Model for BankFile {
    ghost use Rattle.std.specs.Prelude.{ℕ, List};

    ghost Value = { List ℕ };

    ghost view = { λ a. a.bytes.items };
}

impl BankFile {
    /// The file of these bytes.
    pub fn new(bytes: Vec<u8>) -> BankFile
        ensures { result ≡ bytes.items }
    {
        BankFile { bytes }
    }

    /// The bytes.
    pub fn as_slice(&self) -> &[u8]
        ensures { result.now ≡ self.now }
    {
        self.bytes.as_slice()
    }
}
