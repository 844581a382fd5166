//! The buffer in which the parts of a text wait for a sink.

ghost use Rattle.std.specs.Prelude.{◌≡◌, ◌+◌, ◌<◌, ◌≤◌, [], ◌∷◌, ◌++◌, length};
ghost use Rattle.bh_outside.specs.Outside.{HasCause, Writes};
ghost use Rattle.bh_outside.specs.Text.{Puts};

use crate::{Failed, Sink, write_all};
use std::marker::Model;

/// How many bytes can wait.
const ROOM: usize = 65_536;

/// Bytes of a text that wait for a sink: at most 65,536. Contracts see it as the list of these bytes.
///
/// A text of many small parts is put part by part, and then finished. The sink is called once for
/// each full buffer and once at the end, and no memory is taken.
#[derive(Drop)]
pub struct TextBuffer {
    bytes: [u8; ROOM],
    filled: usize,
}

impl Model for TextBuffer {
    ghost use Rattle.std.specs.Prelude.{◌≤◌, List, ℕ, take};
    ghost use Rattle.bh_outside.specs.declared.text.TheConstants.{ROOM};

    ghost Value = { List ℕ };

    ghost view = { λ p. take p.filled p.bytes };

    ghost invariant = { λ p. p.filled ≤ ROOM };
}

impl TextBuffer {
    /// A buffer in which nothing waits.
    pub fn new() -> TextBuffer
        ensures { result ≡ [] }
    {
        TextBuffer {
            bytes: [0; ROOM],
            filled: 0,
        }
    }

    /// Puts a part of a text behind the bytes that wait. Whatever doesn't fit the buffer any more is
    /// written to the sink, in whole buffers.
    ///
    /// # Errors
    ///
    /// `Failed` only where the sink's count of faults rose. The sink then took a prefix of the
    /// bytes that waited and the text.
    #[inline]
    pub fn put<K: Sink>(&mut self, sink: &mut K, text: &[u8]) -> Result<(), Failed>
        ensures text { Puts (K.written sink.old) (K.written sink.new) self.old self.new text.now result }
        ensures cause { HasCause (K.faults sink.old) (K.faults sink.new) result }
    {
        if text.len() <= ROOM - self.filled {
            self.keep(text);
            return Ok(());
        }
        self.put_over(sink, text)
    }

    /// Puts one byte of a text behind the bytes that wait, as `put` does with a part of one byte.
    ///
    /// # Errors
    ///
    /// `Failed` only where the sink's count of faults rose. The sink then took a prefix of the
    /// bytes that waited and this byte.
    #[inline]
    pub fn put_byte<K: Sink>(&mut self, sink: &mut K, byte: u8) -> Result<(), Failed>
        ensures text { Puts (K.written sink.old) (K.written sink.new) self.old self.new (byte ∷ []) result }
        ensures cause { HasCause (K.faults sink.old) (K.faults sink.new) result }
    {
        if self.filled < ROOM {
            self.keep_byte(byte);
            return Ok(());
        }
        self.put_over(sink, &[byte])
    }

    /// Writes the bytes that wait to the sink. Afterwards nothing waits.
    ///
    /// # Errors
    ///
    /// `Failed` only where the sink's count of faults rose. The sink then took a prefix of the
    /// bytes that waited.
    pub fn finish<K: Sink>(&mut self, sink: &mut K) -> Result<(), Failed>
        ensures text { Writes (K.written sink.old) (K.written sink.new) self.old result }
        ensures cause { HasCause (K.faults sink.old) (K.faults sink.new) result }
        ensures empty { self.new ≡ [] }
    {
        let result = write_all(sink, &self.bytes[..self.filled]);
        self.filled = 0;
        result
    }

    // Puts a text that fits behind the bytes that wait.
    fn keep(&mut self, text: &[u8])
        requires fits { length self.old + length text.now ≤ ROOM }
        ensures { self.new ≡ self.old ++ text.now }
    {
        let end = self.filled + text.len();
        self.bytes[self.filled..end].copy_from_slice(text);
        self.filled = end;
    }

    // Puts a byte that fits behind the bytes that wait: no copy of a slice, since most parts of a
    // tree's text are one byte.
    #[inline]
    fn keep_byte(&mut self, byte: u8)
        requires fits { length self.old < ROOM }
        ensures { self.new ≡ self.old ++ (byte ∷ []) }
    {
        self.bytes[self.filled] = byte;
        self.filled += 1;
    }

    // Puts a text, which may be longer than what fits.
    fn put_over<K: Sink>(&mut self, sink: &mut K, text: &[u8]) -> Result<(), Failed>
        ensures text { Puts (K.written sink.old) (K.written sink.new) self.old self.new text.now result }
        ensures cause { HasCause (K.faults sink.old) (K.faults sink.new) result }
    {
        let mut rest = text;
        while rest.len() > ROOM - self.filled {
            let fits = ROOM - self.filled;
            self.keep(&rest[..fits]);
            rest = &rest[fits..];
            match self.finish(sink) {
                Ok(()) => {}
                Err(failed) => return Err(failed),
            }
        }
        self.keep(rest);
        Ok(())
    }
}
