// Text in a lent buffer, written from a place on: the struct has the buffer and the place where the next byte goes, and each method writes one text
// there. specs/Digits and specs/Parts have the texts, specs/Added what a method leaves.
#![tactic(auto)]

ghost use Rattle.std.specs.Prelude.{◌≡◌, [], ◌∷◌, ◌+◌, ◌*◌, ◌≤◌, ◌<◌, length, take};
ghost use Rattle.std.specs.Float.{binary32};
ghost use Rattle.std.specs.Float.Ieee.{of_bits};
ghost use Rattle.text.specs.Digits.{decimal_of, signed_text, hex_digit, hex_of};
ghost use Rattle.text.specs.Parts.{count_text, number_text, bytes_text, float_text, refusal_text};
ghost use Rattle.text.specs.Added.{Fits, Added, AtMost};
ghost use Rattle.text.specs.Holds.{DecimalHolds, SignedHolds, HexHolds, BytesHold, FloatHolds, RefusalHolds};

use std::num::{f32_from_bits_with_nan, f32_to_bits_with_nan};

// The hexadecimal digits of an f32.
const FLOAT_DIGITS: usize = 8;

// A lent buffer, and the place where its next byte goes.
#[derive(Drop)]
pub struct Text<'a> {
    buffer: &'a mut [u8],
    pub at: usize,
}

#[tactic(auto, unfolding(crate::specs::Digits::hex_digit, conditions::specs::Choose::choose))]
fn hex_digit(d: u32) -> u8
    requires { d < 16 }
    ensures { result ≡ hex_digit d }
{
    if d < 10 {
        return b'0' + d as u8;
    }
    b'a' - 10 + d as u8
}

impl<'a> Text<'a> {
    // A text that begins at a place of a buffer.
    pub fn new(at: usize, buffer: &'a mut [u8]) -> Text<'a>
        ensures place { result.at ≡ at }
        ensures bytes { result.buffer.now ≡ buffer.old }
        ensures same_reference { result.buffer.ghost_name ≡ buffer.entry.ghost_name }
    {
        Text { buffer, at }
    }

    pub fn byte(&mut self, byte: u8)
        requires { Fits 1 self.old }
        ensures { Added (byte ∷ []) self.old self.new }
    {
        self.buffer[self.at] = byte;
        self.at += 1;
    }

    pub fn text(&mut self, text: &[u8])
        requires { Fits (length text.now) self.old }
        ensures { Added text.now self.old self.new }
    {
        buffers::put(text, &mut self.buffer[self.at..]);
        self.at += text.len();
    }

    // In decimal: the last digit behind those of a tenth of the number. No `write!`: it asks for a `fmt::Write` over the buffer, which is no plainer.
    pub fn decimal(&mut self, n: u64)
        requires { Fits 20 self.old }
        ensures { Added (decimal_of n) self.old self.new × AtMost 20 self.old self.new }
    {
        if n < 10 {
            self.byte(b'0' + n as u8);
            return;
        }
        self.decimal(n / 10);
        self.byte(b'0' + (n % 10) as u8);
    }

    // A minus sign before a negative number.
    pub fn signed(&mut self, x: i64)
        requires { Fits 21 self.old }
        ensures wrote { Added (signed_text x) self.old self.new × AtMost 21 self.old self.new }
        ensures signed_holds { SignedHolds }
    {
        let size = integers::magnitude(x);
        if x < 0 {
            self.byte(b'-');
        }
        self.decimal(size);
    }

    // The last hexadecimal digits of a number, so many.
    pub fn hex(&mut self, n: u32, count: usize)
        requires { Fits count self.old }
        ensures { Added (hex_of count n) self.old self.new × (self.new.at ≡ self.old.at + count) }
    {
        if count == 0 {
            return;
        }
        self.hex(n / 16, count - 1);
        self.byte(hex_digit(n % 16));
    }

    // A byte as two hexadecimal digits.
    fn pair(&mut self, byte: u8)
        requires { Fits 2 self.old }
        ensures { Added (hex_of 2 byte) self.old self.new × (self.new.at ≡ self.old.at + 2) }
    {
        self.hex(u32::from(byte), 2);
    }

    // Bytes in hexadecimal.
    pub fn bytes(&mut self, bytes: &[u8])
        requires { Fits (2 * length bytes.now) self.old }
        ensures wrote { Added (bytes_text bytes.now) self.old self.new × AtMost (2 * length bytes.now) self.old self.new }
        ensures bytes_hold { BytesHold }
    {
        for byte in bytes {
            self.pair(*byte);
        }
    }

    // The bits of a float; every NaN has the one pattern.
    #[tactic(auto, using(crate::proofs::HoldsLaws::hex_and_floats), unfolding(crate::specs::Parts::float_text))]
    pub fn float(&mut self, x: f32)
        requires { Fits 8 self.old }
        ensures wrote { Added (float_text x) self.old self.new × (self.new.at ≡ self.old.at + 8) }
        ensures hex_holds { HexHolds × FloatHolds }
    {
        self.hex(f32_to_bits_with_nan(x), FLOAT_DIGITS);
    }

    // A number behind a word.
    pub fn count(&mut self, word: &[u8], n: u64)
        requires { Fits (length word.now + 20) self.old }
        ensures wrote { Added (count_text word.now n) self.old self.new × AtMost (length word.now + 20) self.old self.new }
        ensures decimal_holds { DecimalHolds }
    {
        self.text(word);
        self.decimal(n);
    }

    // A number with its sign behind a word.
    pub fn number(&mut self, word: &[u8], x: i64)
        requires { Fits (length word.now + 21) self.old }
        ensures { Added (number_text word.now x) self.old self.new × AtMost (length word.now + 21) self.old self.new }
    {
        self.text(word);
        self.signed(x);
    }

    // A refusal, without the end of its line.
    pub fn refusal(&mut self, number: u64, place: u64)
        requires { Fits 52 self.old }
        ensures wrote { Added (refusal_text number place) self.old self.new × AtMost 52 self.old self.new }
        ensures refusal_holds { RefusalHolds }
    {
        self.count(b"refused ", number);
        self.count(b" at ", place);
    }

    // The bytes that stand before the place of the next one.
    pub fn written(&self) -> &[u8]
        requires { Fits 0 self.now }
        ensures { result.now ≡ take self.now.at self.now.buffer.now }
    {
        &self.buffer[..self.at]
    }
}

// The float of a pattern; those of a NaN are all the one NaN.
pub fn float(bits: u32) -> f32
    ensures { result ≡ of_bits binary32 bits }
{
    f32_from_bits_with_nan(bits)
}
