// Runs the digest and the tag on the cases of standard input, and prints each: tests/vectors.py has the form of the lines.
#![tactic(auto)]

ghost use Rattle.std.specs.Prelude.{◌≡◌, ◌≤◌, length};

use sha256::TooLong;

// Puts the first n bytes there again and again, up to `total`.
fn repeat(out: &mut [u8], n: usize, total: usize)
    requires { total ≤ length out.old }
{
    for i in n..total {
        out[i] = out[i - n];
    }
}

// Puts as many bytes as word k says into `out`, those of the next word again and again, and says how many.
fn spelled(line: &[u8], k: usize, out: &mut [u8]) -> usize
    requires { (k ≤ 5) × (length out.old ≡ 65536) }
    ensures { result ≤ 65536 }
{
    let total = call_lines::number_at(line, k, 65536) as usize;
    let n = call_lines::bytes_at(line, k + 1, out);
    repeat(out, n, total);
    total
}

// The label, and the first bytes of a digest or tag.
fn show<R: Print>(rt: &R, line: &[u8], bytes: &[u8; 32]) {
    let shown = call_lines::number_at(line, 2, 32) as usize;
    call_lines::print(rt, call_lines::nth_word(line, 1));
    call_lines::print_hex(rt, &bytes[..shown]);
}

fn show_refused<R: Print>(rt: &R, line: &[u8]) {
    call_lines::print(rt, call_lines::nth_word(line, 1));
    call_lines::print_one(rt, b" refused", 9);
}

fn digest_case<R: Print>(rt: &R, line: &[u8]) {
    let mut m = [0u8; 65536];
    let n = spelled(line, 3, &mut m);
    let mut out = [0u8; 32];
    match sha256::digest(&m[0..n], &mut out) {
        Ok(()) => show(rt, line, &out),
        Err(TooLong) => show_refused(rt, line),
    }
}

fn tag_case<R: Print>(rt: &R, line: &[u8]) {
    let mut k = [0u8; 65536];
    let kn = spelled(line, 3, &mut k);
    let mut m = [0u8; 65536];
    let n = spelled(line, 5, &mut m);
    let mut out = [0u8; 32];
    match hmac::tag(&k[0..kn], &m[0..n], &mut out) {
        Ok(()) => show(rt, line, &out),
        Err(TooLong) => show_refused(rt, line),
    }
}

fn one<R: Print>(rt: &R, line: &[u8]) {
    if call_lines::first_letter(line) == b'd' {
        digest_case(rt, line);
    } else {
        tag_case(rt, line);
    }
}

fn main(rt: HostRuntime) {
    let mut text = [0u8; 65536];
    let n = call_lines::read_full(&mut rt.stdin(), &mut text);
    for line in text[..n].split_inclusive(|b| *b == b'\n') {
        one(&rt, line.strip_suffix(b"\n".as_slice()).unwrap_or(line));
        call_lines::print_end(&rt);
    }
}
