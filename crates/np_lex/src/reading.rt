//! Reading tokens one by one.

ghost use Rattle.std.specs.Prelude.{◌≡◌, ◌+◌, ◌<◌, ◌≤◌, ◌^◌, length, take, drop};
ghost use Rattle.np_lex.specs.Blanks.{blank_length};
ghost use Rattle.np_lex.specs.Lines.{CountsLines};

use crate::blanks::blank_length;
use crate::lines::Lines;
use crate::longest::{begins_with_name, first_number, first_token};
use crate::numbers::first_natural;
use crate::token::{BadByte, Place, Token};

/// Reads the tokens of a text. It takes no memory, and a copy of it looks ahead.
#[derive(Clone, Copy, Debug)]
pub struct Lexer<'a> {
    bytes: &'a [u8],
    // What is before this offset was read, and neither a blank nor a comment begins here.
    offset: usize,
    // Lines are counted where a place is asked for. They were counted up to this offset, and `lines` are those before it.
    counted: usize,
    lines: Lines,
    ghost short: { length bytes.now < 2 ^ 63 },
    ghost in_range: { offset ≤ length bytes.now },
    ghost no_blank_next: { blank_length (drop offset bytes.now) ≡ 0 },
    ghost counted_in_range: { counted ≤ offset },
    ghost lines_counted: { CountsLines lines (take counted bytes.now) },
}

impl<'a> Lexer<'a> {
    ghost use Rattle.std.specs.Prelude.{◌↔◌, IsTrue, IfOk, IfErr, IfSome, IfNone, Some, false, decimal};
    ghost use Rattle.std.specs.List.{slice_range};
    ghost use Rattle.np_lex.specs.LongestToken.{is_name};
    ghost use Rattle.np_lex.specs.declared.token.Kind.TheVariants.{Number};
    ghost use Rattle.np_lex.specs.Tokens.{place_of, items_of, first_place, lower, left, right, named, numeral};
    ghost use Rattle.np_lex.specs.Lexers.{bytes_of, items_left, GivesToken, FindsEnd, FindsBadByte, IsNextByte, IsShortNatural, Takes, Leaves};

    /// Reads the text from its first byte on.
    #[tactic(auto, unfolding(crate::specs::Lexers::bytes_of, crate::specs::Lexers::items_left))]
    pub fn new(bytes: &'a [u8]) -> Lexer<'a>
        ensures bytes { bytes_of result ≡ bytes.now }
        ensures items { items_left result ≡ items_of bytes.now }
    {
        Lexer {
            bytes,
            offset: blank_length(bytes),
            counted: 0,
            lines: Lines {
                feeds: 0,
                columns: 0,
            },
        }
    }

    /// The next token, after blanks and comments: the longest that begins there. None at the end of the text. `BadByte`
    /// where no token begins at the next byte. After the end or a bad byte every call answers the same.
    pub fn next(&mut self) -> Result<Option<Token>, BadByte>
        ensures bytes { bytes_of self.new ≡ bytes_of self.old }
        ensures token { IfOk result (λ next. IfSome next (GivesToken self.old self.new)) }
        ensures end { IfOk result (λ next. IfNone next (FindsEnd self.old self.new)) }
        ensures bad_byte { IfErr result (FindsBadByte self.old self.new) }
    {
        let from = self.offset;
        let rest = &self.bytes[from..];
        if rest.is_empty() {
            return Ok(None);
        }
        let lines = self.lines_so_far();
        let place = self.place_by(lines);
        let Some((kind, length)) = first_token(rest) else {
            return Err(BadByte { place });
        };
        let to = from + length;
        *self = Lexer {
            bytes: self.bytes,
            offset: self.after_blanks(to),
            counted: from,
            lines,
        };
        Ok(Some(Token {
            kind,
            from,
            to,
            place,
        }))
    }

    /// The place of what comes next: of a token, of a bad byte, or of the end, which is after the last byte.
    #[cold]
    #[inline(never)]
    pub fn place(&self) -> Place
        ensures { first_place (items_left self.now) ≡ Some result }
    {
        self.place_by(self.lines_so_far())
    }

    /// Whether an opening bracket comes next. If so it was read, else the lexer is as before.
    #[inline(always)]
    pub fn take_left(&mut self) -> bool
        ensures bytes { bytes_of self.new ≡ bytes_of self.old }
        ensures taken { IsTrue result → Takes self.old self.new left }
        ensures other { result ≡ false → Leaves self.old self.new (λ lexeme. lexeme ≡ left) }
    {
        self.take_byte(b'(')
    }

    /// Whether a closing bracket comes next. If so it was read, else the lexer is as before.
    #[inline(always)]
    pub fn take_right(&mut self) -> bool
        ensures bytes { bytes_of self.new ≡ bytes_of self.old }
        ensures taken { IsTrue result → Takes self.old self.new right }
        ensures other { result ≡ false → Leaves self.old self.new (λ lexeme. lexeme ≡ right) }
    {
        self.take_byte(b')')
    }

    /// Whether this name, which is of small letters and read in any case, comes next. If so it was read, else the lexer is
    /// as before.
    #[inline(always)]
    pub fn take_name(&mut self, name: &[u8]) -> bool
        requires name { IsTrue (is_name name.now) }
        requires small { lower name.now ≡ name.now }
        ensures bytes { bytes_of self.new ≡ bytes_of self.old }
        ensures taken { IsTrue result → Takes self.old self.new (named name.now) }
        ensures other { result ≡ false → Leaves self.old self.new (λ lexeme. lexeme ≡ named name.now) }
    {
        let found = begins_with_name(&self.bytes[self.offset..], name);
        if found {
            self.pass(name.len());
        }
        found
    }

    /// The bytes of the number that comes next. If one does it was read, else the lexer is as before.
    pub fn take_number(&mut self) -> Option<&'a [u8]>
        ensures bytes { bytes_of self.new ≡ bytes_of self.old }
        ensures taken { IfSome result (λ text. Takes self.old self.new (numeral (lower text.now))) }
        ensures other { IfNone result (Leaves self.old self.new (λ lexeme. lexeme.kind ≡ Number)) }
    {
        let from = self.offset;
        let length = first_number(&self.bytes[from..])?;
        self.pass(length);
        Some(&self.bytes[from..from + length])
    }

    /// The number that comes next, if at most 18 digits write it, without a sign and without a leading zero other than 0
    /// itself. If so it was read, else the lexer is as before.
    pub fn take_natural(&mut self) -> Option<u64>
        ensures bytes { bytes_of self.new ≡ bytes_of self.old }
        ensures taken { IfSome result (λ number. Takes self.old self.new (numeral (decimal number))) }
        ensures stays { IfNone result (self.new ≡ self.old) }
        ensures other { IfNone result (Leaves self.old self.new IsShortNatural) }
    {
        let (number, length) = first_natural(&self.bytes[self.offset..])?;
        self.pass(length);
        Some(number)
    }

    /// The whole text.
    #[tactic(auto, unfolding(crate::specs::Lexers::bytes_of))]
    pub fn bytes(&self) -> &'a [u8]
        ensures { result.now ≡ bytes_of self.now }
    {
        self.bytes
    }

    /// The bytes of a token of the text.
    #[tactic(auto, unfolding(crate::specs::Lexers::bytes_of))]
    pub fn text(&self, token: &Token) -> &'a [u8]
        requires ordered { token.now.from ≤ token.now.to }
        requires in_range { token.now.to ≤ length (bytes_of self.now) }
        ensures { result.now ≡ slice_range (bytes_of self.now) token.now.from token.now.to }
    {
        &self.bytes[token.from..token.to]
    }

    /// The lines before the offset.
    #[tactic(auto, using(crate::proofs::LineCounts::lines_le, crate::proofs::LineCounts::columns_le))]
    fn lines_so_far(&self) -> Lines
        ensures { CountsLines result (take self.now.offset self.now.bytes.now) }
    {
        let mut feeds = self.lines.feeds;
        let mut columns = self.lines.columns;
        for offset in self.counted..self.offset {
            if self.bytes[offset] == b'\n' {
                feeds += 1;
                columns = 0;
            } else {
                columns += 1;
            }
        }
        Lines { feeds, columns }
    }

    /// The place of the offset, by the lines before it.
    fn place_by(&self, lines: Lines) -> Place
        requires { CountsLines lines (take self.now.offset self.now.bytes.now) }
        ensures { result ≡ place_of self.now.bytes.now self.now.offset }
    {
        Place {
            offset: self.offset,
            line: lines.feeds + 1,
            column: lines.columns + 1,
        }
    }

    /// The offset after the blanks and comments that begin at this one.
    #[inline(always)]
    fn after_blanks(&self, from: usize) -> usize
        requires { from ≤ length self.now.bytes.now }
        ensures value { result ≡ from + blank_length (drop from self.now.bytes.now) }
        ensures in_range { result ≤ length self.now.bytes.now }
        ensures no_blank { blank_length (drop result self.now.bytes.now) ≡ 0 }
    {
        from + blank_length(&self.bytes[from..])
    }

    /// Passes so many bytes, and the blanks and comments after them.
    #[inline(always)]
    fn pass(&mut self, size: usize)
        requires { self.old.offset + size ≤ length self.old.bytes.now }
        ensures offset { self.new.offset ≡ self.old.offset + size + blank_length (drop (self.old.offset + size) self.old.bytes.now) }
        ensures bytes { self.new.bytes ≡ self.old.bytes }
    {
        *self = Lexer {
            bytes: self.bytes,
            offset: self.after_blanks(self.offset + size),
            counted: self.counted,
            lines: self.lines,
        };
    }

    /// Whether this byte comes next. If so it was read, else the lexer is as before.
    #[inline(always)]
    fn take_byte(&mut self, byte: u8) -> bool
        ensures bytes { self.new.bytes ≡ self.old.bytes }
        ensures taken { IsTrue result → self.new.offset ≡ self.old.offset + 1 + blank_length (drop (self.old.offset + 1) self.old.bytes.now) }
        ensures next { IsTrue result ↔ IsNextByte self.old byte }
        ensures stays { result ≡ false → self.new ≡ self.old }
    {
        let found = self.offset < self.bytes.len() && self.bytes[self.offset] == byte;
        if found {
            self.pass(1);
        }
        found
    }
}
