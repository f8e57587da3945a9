//! A text that is put behind others, and may be taken off their end again.
ghost use Rattle.std.specs.Prelude.{◌≡◌, [], ◌∷◌, ◌++◌, OnOk, if◌then◌else◌};

use std::alloc::AllocError;
use std::marker::Model;

/// Bytes that stood there, and a text behind them. Contracts see both.
#[derive(Drop)]
pub struct Draft {
    bytes: Vec<u8>,
    start: usize,
}

impl Model for Draft {
    ghost use Rattle.std.specs.Prelude.{◌≤◌, length, take, drop};
    ghost use Rattle.ml_writer.specs.inside.DraftText.{DraftText};

    ghost Value = { DraftText };

    ghost view = { λ d. record {
      before = take d.start d.bytes.items;
      text = drop d.start d.bytes.items;
    } };

    ghost invariant = { λ d. d.start ≤ length d.bytes.items };
}

impl Draft {
    /// An empty text behind these bytes.
    pub fn behind(bytes: Vec<u8>) -> Draft
        ensures before { result.before ≡ bytes.items }
        ensures text { result.text ≡ [] }
    {
        Draft {
            start: bytes.len(),
            bytes,
        }
    }

    /// Puts more behind the text. What stood there stays, also after a refusal.
    pub fn put(&mut self, more: &[u8]) -> Result<(), AllocError>
        ensures kept { self.new.before ≡ self.old.before }
        ensures text { OnOk result (self.new.text ≡ self.old.text ++ more.now) }
    {
        self.bytes.extend_from_slice(more)
    }

    /// The bytes with the text, or without it.
    pub fn end(self, with_text: bool) -> Vec<u8>
        ensures { result.items ≡ (if with_text then self.before ++ self.text else self.before) }
    {
        let mut bytes = self.bytes;
        if !with_text {
            bytes.truncate(self.start);
        }
        bytes
    }
}
