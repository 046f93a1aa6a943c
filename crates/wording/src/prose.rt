//! A text that grows piece by piece.

ghost use Rattle.std.specs.Prelude.{◌≡◌, ◌&&◌, ◌++◌, ◌∷◌, [], IfOk, MatchResult, None, false, is_ok, length, option_map, true};
ghost use Rattle.wording.specs.Proses.{Adds, Grows, meant};

use itoa::{Buffer, Integer};
use std::alloc::{AllocError, Global};
use std::fmt;
use std::marker::Model;

/// A text that grows piece by piece, from words of the program and bytes that a user wrote. Once there is no memory for
/// a piece, it accepts no other piece, and its bytes cannot be read.
#[derive(Drop)]
pub struct Prose {
    alloc: Global,
    text: Vec<u8>,
    is_whole: bool,
}

impl Model for Prose {
    ghost use Rattle.wording.specs.Proses.{ProseView};

    ghost Value = { ProseView };

    ghost view = { λ p. record { text = p.text.items; is_whole = p.is_whole } };
}

impl Prose {
    /// Returns the empty text.
    pub fn new(alloc: Global) -> Prose
        ensures { result ≡ record { text = []; is_whole = true } }
    {
        Prose {
            alloc,
            text: Vec::new(alloc),
            is_whole: true,
        }
    }

    /// Returns its allocator.
    pub fn alloc(&self) -> Global {
        self.alloc
    }

    /// Adds bytes, as a user wrote them.
    pub fn push_bytes(&mut self, bytes: &[u8])
        ensures { Adds bytes.now self.old self.new }
    {
        if self.is_whole {
            self.is_whole = self.text.extend_from_slice(bytes).is_ok();
        }
    }

    /// Adds a byte.
    pub fn push_byte(&mut self, byte: u8)
        ensures { Adds (byte ∷ []) self.old self.new }
    {
        self.push_bytes(&[byte]);
    }

    /// Adds a piece.
    pub fn push_str(&mut self, piece: &str)
        ensures { Adds piece.now self.old self.new }
    {
        self.push_bytes(piece.as_bytes());
    }

    /// Adds a piece and a word.
    #[tactic(auto, using(crate::proofs::ProseLemmas::adds_then))]
    pub fn push_word(&mut self, piece: &str, word: &[u8])
        ensures { Adds (piece.now ++ word.now) self.old self.new }
    {
        self.push_str(piece);
        self.push_bytes(word);
    }

    /// Adds a word between two pieces.
    #[tactic(auto, using(crate::proofs::ProseLemmas::adds_then))]
    pub fn push_around(&mut self, before: &str, word: &[u8], behind: &str)
        ensures { Adds ((before.now ++ word.now) ++ behind.now) self.old self.new }
    {
        self.push_word(before, word);
        self.push_str(behind);
    }

    /// Adds a number.
    pub fn push_number<N: Integer>(&mut self, number: N)
        ensures { Adds (N.text number) self.old self.new }
    {
        self.push_str(Buffer::new().format(number));
    }

    /// Adds a piece and a number.
    #[tactic(auto, using(crate::proofs::ProseLemmas::adds_then))]
    pub fn push_with<N: Integer>(&mut self, piece: &str, number: N)
        ensures { Adds (piece.now ++ N.text number) self.old self.new }
    {
        self.push_str(piece);
        self.push_number(number);
    }

    /// Adds copies of a byte until the text has `len` bytes; nothing if it is already as long.
    pub fn pad_to(&mut self, len: usize, byte: u8) {
        if self.is_whole && self.text.len() < len {
            self.is_whole = self.text.resize(len, byte).is_ok();
        }
    }

    /// Returns the result of a search for something to write. If there was no memory for the search, the text is
    /// incomplete, and its bytes cannot be read.
    pub fn found<'n>(&mut self, what: Result<Option<&'n [u8]>, AllocError>) -> Option<&'n [u8]>
        ensures state { self.new ≡ record self.old { is_whole = is_ok what.entry && self.old.is_whole } }
        ensures given { MatchResult what.entry (λ known. option_map (λ name. name.now) result ≡ option_map (λ name. name.now) known) (λ e. result ≡ None) }
    {
        match what {
            Ok(what) => what,
            Err(AllocError) => {
                self.is_whole = false;
                None
            }
        }
    }

    /// Adds the question whether a close name is intended, if there is such a name.
    pub fn push_meant(&mut self, near: Result<Option<&[u8]>, AllocError>)
        ensures grows { Grows self.old.text self.new.text }
        ensures meant { MatchResult near.entry (λ name. Adds (meant (option_map (λ n. n.now) name)) self.old self.new) (λ e. self.new ≡ record self.old { is_whole = false }) }
    {
        if let Some(name) = self.found(near) {
            self.push_around("; did you mean ", name, "?");
        }
    }

    /// Returns the number of its bytes.
    pub fn len(&self) -> usize
        ensures { result ≡ length self.now.text }
    {
        self.text.len()
    }

    /// Removes all pieces. A text that lacked a piece remains incomplete.
    pub fn clear(&mut self)
        ensures { self.new ≡ record self.old { text = [] } }
    {
        self.text.clear();
    }

    /// Returns its bytes. Fails if there was no memory for a piece.
    pub fn as_bytes(&self) -> Result<&[u8], AllocError>
        ensures whole { is_ok result ≡ self.now.is_whole }
        ensures text { IfOk result (λ bytes. bytes.now ≡ self.now.text) }
    {
        if self.is_whole {
            Ok(self.text.as_slice())
        } else {
            Err(AllocError)
        }
    }

    /// Returns its bytes, and ends it. Fails if there was no memory for a piece.
    pub fn finish(self) -> Result<Vec<u8>, AllocError>
        ensures whole { is_ok result ≡ self.is_whole }
        ensures text { IfOk result (λ bytes. bytes.items ≡ self.text) }
    {
        self.as_bytes()?;
        Ok(self.text)
    }
}

impl fmt::Write for Prose {
    fn write_str(&mut self, piece: &str) -> fmt::Result {
        self.push_str(piece);
        Ok(())
    }
}
