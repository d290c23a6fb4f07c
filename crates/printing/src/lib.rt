// The lines that are printed of a file (01, "Cases"): a line a rule, or that of a refusal.
#![tactic(auto)]

ghost use Rattle.std.specs.Prelude.{◌≡◌, List, [], ◌∷◌, ◌++◌, ℕ, ◌+◌, ◌*◌, ◌≤◌, ◌<◌, length, take};
ghost use Rattle.rule.specs.Limits.{most_rules};
ghost use Rattle.refusals.specs.Number.{refusal_number};
ghost use Rattle.printing.specs.Code.Put.{Put};
ghost use Rattle.printing.specs.Limits.{number_limit, longest_number, longest_line, longest_refusal};
ghost use Rattle.printing.specs.Printed.{number_then, line_at, lines, refused_line};

use fields::{byte, two};
use refusals::Refusal;
use std::marker::Model;
use verdicts::RULE_BYTES;

// Puts a text at a place, and gives the place after it.
pub fn put_text(text: &[u8], out: &mut [u8], at: usize) -> usize
    requires { at + length text.now ≤ length out.old }
    ensures { Put out.old at out.new result text.now }
{
    let end = at + text.len();
    out[at..end].copy_from_slice(text);
    end
}

// Puts a number of at most five digits and the character after it.
fn put_number(out: &mut [u8], at: usize, n: u32, end: u8) -> usize
    requires { (at + longest_number ≤ length out.old) × (n < number_limit) }
    ensures { Put out.old at out.new result (number_then n end) × (result ≤ at + longest_number) }
{
    let mut digits = [0u8; 20];
    let count = io::decimal(n as u64, &mut digits);
    let after = put_text(&digits[..count], out, at);
    put_text(&[end], out, after)
}

// Puts the line of the rule at a place.
fn put_line(verdicts: &[u8], out: &mut [u8], at: usize, k: usize) -> usize
    requires { (at + longest_line ≤ length out.old) × (k < most_rules) }
    ensures { Put out.old at out.new result (line_at verdicts.now k)
        × (result ≤ at + longest_line) }
{
    let start = RULE_BYTES * k;
    let fate = put_number(out, at, (k + 1) as u32, b' ');
    let first = put_number(out, fate, u32::from(byte(verdicts, start)), b' ');
    let second = put_number(out, first, two(verdicts, start + 1), b' ');
    put_number(out, second, two(verdicts, start + 3), b'\n')
}

// Puts the lines of the first `count` rules, from a place on.
fn put_lines_at(verdicts: &[u8], out: &mut [u8], at: usize, count: usize) -> usize
    requires { (at + longest_line * count ≤ length out.old) × (count ≤ most_rules) }
    ensures { Put out.old at out.new result (lines verdicts.now count)
        × (result ≤ at + longest_line * count) }
{
    let mut end = at;
    for k in 0..count {
        end = put_line(verdicts, out, end, k);
    }
    end
}

// The same from the start.
pub fn put_lines(verdicts: &[u8], out: &mut [u8], count: usize) -> usize
    requires { (longest_line * count ≤ length out.old) × (count ≤ most_rules) }
    ensures { Put out.old 0 out.new result (lines verdicts.now count)
        × (result ≤ longest_line * count) }
{
    put_lines_at(verdicts, out, 0, count)
}

// Puts the line of a refused file at a place.
fn put_refused_at(out: &mut [u8], at: usize, refusal: u8) -> usize
    requires { at + longest_refusal ≤ length out.old }
    ensures { Put out.old at out.new result (refused_line refusal) × (result ≤ at + longest_refusal) }
{
    let after = put_text(b"refused ", out, at);
    put_number(out, after, u32::from(refusal), b'\n')
}

// The same at the start. By number: it promises the line of every number, also of one that no refusal has.
pub fn put_refused(out: &mut [u8], refusal: u8) -> usize
    requires { longest_refusal ≤ length out.old }
    ensures { Put out.old 0 out.new result (refused_line refusal) × (result ≤ longest_refusal) }
{
    put_refused_at(out, 0, refusal)
}

// A text of at most N bytes. It is no `String`: the program needs no heap, as the library needs none.
#[derive(Drop)]
pub struct Text<const N: usize> {
    bytes: [u8; N],
    size: usize,
}

// Clauses see the bytes that were put.
impl<const N: usize> Model for Text<N> {
    ghost Value = { List ℕ };

    ghost view = { λ text. take text.size text.bytes };

    ghost invariant = { λ text. text.size ≤ N };
}

impl<const N: usize> Text<N> {
    pub fn new() -> Self
        ensures { result ≡ [] }
    {
        Text {
            bytes: [0; N],
            size: 0,
        }
    }

    pub fn as_bytes(&self) -> &[u8]
        ensures { result.now ≡ self.now }
    {
        let room = &self.bytes[..];
        &room[..self.size]
    }

    // Puts bytes at the end.
    pub fn put(&mut self, bytes: &[u8])
        requires { length self.old + length bytes.now ≤ N }
        ensures { self.new ≡ self.old ++ bytes.now }
    {
        let room = &mut self.bytes[..];
        self.size = put_text(bytes, room, self.size);
    }

    // Puts the lines of the first `count` rules at the end.
    pub fn put_lines(&mut self, verdicts: &[u8], count: usize)
        requires { (length self.old + longest_line * count ≤ N) × (count ≤ most_rules) }
        ensures { (self.new ≡ self.old ++ lines verdicts.now count)
            × (length self.new ≤ length self.old + longest_line * count) }
    {
        let room = &mut self.bytes[..];
        self.size = put_lines_at(verdicts, room, self.size, count);
    }

    // Puts the line of a refused file at the end.
    pub fn put_refused(&mut self, refusal: Refusal)
        requires { length self.old + longest_refusal ≤ N }
        ensures { (self.new ≡ self.old ++ refused_line (refusal_number refusal))
            × (length self.new ≤ length self.old + longest_refusal) }
    {
        let room = &mut self.bytes[..];
        self.size = put_refused_at(room, self.size, u8::from(refusal));
    }
}
