// What the programs that run listed calls share: the words of a line, a state in bytes, and printing.
#![tactic(auto)]

ghost use Rattle.std.specs.Prelude.{◌+◌, ◌≤◌, ◌≡◌, ◌==◌, [], length, take, drop, slice_get};
ghost use Rattle.std.specs.List.{slice_split};
ghost use Rattle.std.specs.Option.{unwrap_or};

use std::io::{Print, Read};

// Room for the text. An array of this size written in place is unfolded by the check where it stands, which is too much: a contract of its own.
pub fn text_buffer() -> [u8; 1048576]
    ensures { 1048576 ≡ length result }
{
    [0; 1048576]
}

// Reads until `buf` is full, the input ends or a read fails, and answers how many bytes stand at the front of `buf` then.
pub fn read_full<R: Read>(reader: &mut R, buf: &mut [u8]) -> usize
    ensures { result ≤ length buf.new }
{
    let mut done = 0;
    while done < buf.len() {
        match reader.read(&mut buf[done..]) {
            Ok(0) | Err(_) => return done,
            Ok(n) => done += n,
        }
    }
    done
}

// Words of a line

// The word after `k` spaces, empty where there are fewer.
pub fn nth_word(line: &[u8], k: usize) -> &[u8]
    ensures { result.now ≡ unwrap_or (slice_get (slice_split (λ b. b == 32) line.now) k) [] }
{
    line.split(|b| *b == b' ').nth(k).unwrap_or(&[])
}

// The number that the word after `k` spaces spells, held at `cap`; `cap` for what is no number.
pub fn number_at(line: &[u8], k: usize, cap: u32) -> u32
    ensures { result ≤ cap }
{
    text::number(nth_word(line, k), cap).unwrap_or(cap)
}

pub fn byte_at(line: &[u8], k: usize) -> u8 {
    number_at(line, k, 255) as u8
}

// Puts the bytes that the word after `k` spaces has in hexadecimal at the front of `out`, and answers how many.
pub fn bytes_at(line: &[u8], k: usize, out: &mut [u8]) -> usize
    ensures { result ≤ length out.old }
{
    text_hex::unhex(nth_word(line, k), out)
}

// A line's first letter, 0 where it is empty.
pub fn first_letter(line: &[u8]) -> u8 {
    line.first().copied().unwrap_or(0)
}

// States in bytes, one after the other

// The N bytes from `at` on.
pub fn part<const N: usize>(s: &[u8], at: usize) -> [u8; N]
    requires { at + N ≤ length s.now }
    ensures { result ≡ take N (drop at s.now) }
{
    let mut t = [0; N];
    t.copy_from_slice(&s[at..at + N]);
    t
}

// Puts the bytes of the line's word 4 into a state, from the byte on that its word 3 names, and prints its digest.
pub fn change<R: Print>(rt: &R, state: &mut [u8], line: &[u8])
    requires { length state.old ≤ 65535 }
{
    let at = number_at(line, 3, state.len() as u32) as usize;
    bytes_at(line, 4, &mut state[at..]);
    print(rt, b"changed");
    print_digest(rt, state);
}

// Printing

// A write that fails is not told.
pub fn print<R: Print>(rt: &R, s: &[u8]) {
    let _ = rt.write_all(s);
}

pub fn print_end<R: Print>(rt: &R) {
    print(rt, b"\n");
}

// A number.
pub fn print_decimal<R: Print>(rt: &R, n: u64) {
    let _ = rt.print(n);
}

// A space and a number.
fn print_number<R: Print>(rt: &R, n: u64) {
    print(rt, b" ");
    print_decimal(rt, n);
}

// A word and a number.
pub fn print_one<R: Print>(rt: &R, word: &[u8], n: u64) {
    print(rt, word);
    print_number(rt, n);
}

// A word and two numbers.
pub fn print_two<R: Print>(rt: &R, word: &[u8], m: u64, n: u64) {
    print(rt, word);
    print_number(rt, m);
    print_number(rt, n);
}

// A space and up to 32 bytes in hexadecimal.
pub fn print_hex<R: Print>(rt: &R, s: &[u8])
    requires { length s.now ≤ 32 }
{
    let mut line = [32u8; 65];
    let e = text_hex::hex(&mut line, 1, s);
    print(rt, &line[0..e]);
}

// A space and the first eight bytes of the digest.
pub fn print_digest<R: Print>(rt: &R, s: &[u8])
    requires { length s.now ≤ 65535 }
{
    let digest = sha256::digest_of(s);
    print_hex(rt, &digest[0..8]);
}
