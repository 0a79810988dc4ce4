//! The tokens of a line, and their meaning.
ghost use Rattle.std.specs.Prelude.{◌≡◌, ◌≢◌, ◌↔◌, ◌∷◌, [], ◌<◌, ◌^◌, IfSome, IfNone, IfOk, OnErr, IsSome, IsErr, string_bytes};
ghost use Rattle.std.specs.Str.Parse.{digits_value};
ghost use Rattle.blob_tokens.specs.Forms.{text, hex, digits};
ghost use Rattle.blob_tokens.specs.Tokens.{tokens, bytes_of, number_of, IsNumber};

use crate::digits::parse;
use crate::hex_text::decode_hex;
use crate::refused_line::RefusedLine;
use std::alloc::Global;
use std::marker::Model;
use std::mem;

/// The remaining tokens of a line. Only spaces separate tokens, not tabs.
#[derive(Drop)]
pub struct Tokens<'a> {
    rest: &'a str,
}

impl<'a> Model for Tokens<'a> {
    ghost use Rattle.std.specs.Prelude.{List, ℕ};
    ghost use Rattle.blob_tokens.specs.Tokens.{tokens};

    ghost Value = { List (List ℕ) };

    ghost view = { λ t. tokens t.rest.now };
}

impl<'a> Tokens<'a> {
    /// Returns the tokens of a line.
    pub fn new(line: &'a str) -> Tokens<'a>
        ensures { result ≡ tokens line.now }
    {
        Tokens { rest: line }
    }

    /// Removes and returns the next token.
    #[inline(always)]
    pub fn next(&mut self) -> Option<&'a str>
        ensures some { IfSome result (λ token. self.old ≡ token.now ∷ self.new) }
        ensures none { IfNone result (self.old ≡ []) }
        ensures done { IfNone result (self.new ≡ []) }
    {
        if self.rest.is_empty() {
            return None;
        }
        while let Some((piece, rest)) = self.rest.split_once(' ') {
            self.rest = rest;
            if !piece.is_empty() {
                return Some(piece);
            }
        }
        let last = mem::replace(&mut self.rest, "");
        if last.is_empty() {
            return None;
        }
        Some(last)
    }

    /// Removes and parses the next token, a number: decimal digits, at most `u64::MAX`.
    ///
    /// # Errors
    ///
    /// `BadCall` if there is no token or it isn't a number.
    #[inline(always)]
    pub fn number(&mut self) -> Result<u64, RefusedLine>
        ensures ok { IfOk result (λ read. digits self.old ≡ Some (read, self.new)) }
        ensures bad { OnErr result (digits self.old ≡ None) }
    {
        let token = self.next().ok_or(RefusedLine::BadCall)?;
        match parse(token.as_bytes()) {
            Some(number) => Ok(number),
            None => Err(RefusedLine::BadCall),
        }
    }

    /// Removes and parses the next token, bytes: an even number of hex digits, or `-` for none.
    ///
    /// # Errors
    ///
    /// `BadCall` if there is no token or it is neither, `NoMemory` if the bytes can't be allocated.
    #[inline(always)]
    pub fn bytes(&mut self, alloc: Global) -> Result<Vec<u8>, RefusedLine>
        ensures ok { IfOk result (λ read. hex self.old ≡ Some (read.items, self.new)) }
        ensures bad { result ≡ Err RefusedLine.BadCall → hex self.old ≡ None }
    {
        let token = self.next().ok_or(RefusedLine::BadCall)?;
        // Compares the length first, since comparing the texts takes a call.
        if token.len() == 1 && token == "-" {
            return Ok(Vec::new(alloc));
        }
        decode_hex(alloc, token.as_bytes())
    }

    /// Removes and returns the next token as a string.
    ///
    /// # Errors
    ///
    /// `BadCall` if there is no token, `NoMemory` if the string can't be allocated.
    pub fn text(&mut self, alloc: Global) -> Result<String, RefusedLine>
        ensures ok { IfOk result (λ read. text self.old ≡ Some (string_bytes read, self.new)) }
        ensures bad { result ≡ Err RefusedLine.BadCall → text self.old ≡ None }
    {
        let token = self.next().ok_or(RefusedLine::BadCall)?;
        Ok(String::from_str(alloc, token)?)
    }

    /// Says that the line ends here.
    ///
    /// # Errors
    ///
    /// `BadCall` if a token is left.
    pub fn end(&mut self) -> Result<(), RefusedLine>
        ensures ok { IfOk result (λ _. self.old ≡ []) }
        ensures bad { OnErr result (self.old ≢ []) }
    {
        match self.next() {
            None => Ok(()),
            Some(_) => Err(RefusedLine::BadCall),
        }
    }
}

/// Parses a number: decimal digits, at most `u64::MAX`.
pub fn number(token: &str) -> Option<u64>
    ensures value { IfSome result (λ value. value ≡ digits_value 10 token.now) }
    ensures found { IsSome result ↔ IsNumber token.now }
    ensures read { result ≡ number_of token.now }
{
    parse(token.as_bytes())
}

/// Parses bytes: an even number of hex digits, or `-` for none.
///
/// # Errors
///
/// `BadCall` if it is neither, `NoMemory` if the bytes can't be allocated.
pub fn bytes(alloc: Global, token: &str) -> Result<Vec<u8>, RefusedLine>
    ensures ok { IfOk result (λ bytes. bytes_of token.now ≡ Ok bytes.items) }
    ensures bad { result ≡ Err RefusedLine.BadCall → IsErr (bytes_of token.now) }
{
    if token == "-" {
        return Ok(Vec::new(alloc));
    }
    decode_hex(alloc, token.as_bytes())
}
