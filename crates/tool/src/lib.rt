// What a program does that reads the files its arguments name: the arguments looked at, files opened, failures told on standard error.
// Definitions: specs/Tool.antt. What the operating system is asked and told stays by reading: std says what a call does.
#![tactic(auto)]

ghost use Rattle.std.specs.Prelude.{◌≡◌, false};
ghost use Rattle.tool.specs.Tool.{kind_of, unknown_at, first_of, why_of, next_read, WriteFailedIn};

use input::Brought;
use std::env::{Env, FillError};
use std::fs::{File, Files};
use std::io;
use std::io::{Cursor, Input, Read, Write};

// What an argument is: `--help`; another that begins with `-`; `-` alone, which is standard input; or a file's name.
#[derive(Clone, Copy)]
pub enum Argument {
    Help,
    Unknown,
    Input,
    File,
}

pub fn kind(arg: &[u8]) -> Argument
    ensures { result ≡ kind_of arg.now }
{
    if arg == b"--help".as_slice() {
        return Argument::Help;
    }
    if arg == b"-".as_slice() {
        return Argument::Input;
    }
    if !arg.is_empty() && arg[0] == b'-' {
        return Argument::Unknown;
    }
    Argument::File
}

// What the arguments ask: the help, where one is `--help`; else nothing, where one is an unknown option, the first of them; else that
// files are read.
#[derive(Clone, Copy)]
pub enum Asks {
    Help,
    Unknown(usize),
    Files,
}

// Argument `i` is an unknown option, and those after it ask `later`.
#[tactic(auto, unfolding(crate::specs::Tool::unknown_at))]
fn unknown_at(i: usize, later: Asks) -> Asks
    ensures { result ≡ unknown_at i later }
{
    match later {
        Asks::Help => Asks::Help,
        Asks::Unknown(_) | Asks::Files => Asks::Unknown(i),
    }
}

// What argument `i` and those after it ask, where those after it ask `later`.
#[tactic(auto, unfolding(crate::specs::Tool::first_of))]
fn first_of(a: Argument, i: usize, later: Asks) -> Asks
    ensures { result ≡ first_of a i later }
{
    match a {
        Argument::Help => Asks::Help,
        Argument::Unknown => unknown_at(i, later),
        Argument::Input | Argument::File => later,
    }
}

// How many arguments there are, the program's own name among them.
pub fn arg_count<R: Env>(rt: &R) -> usize {
    for i in 0..usize::MAX {
        if let Err(FillError::NotPresent) = rt.arg(i, &mut []) {
            return i;
        }
    }
    0
}

// Why an argument was not read, as an error of the system: it is longer than a path may be (36), or there is none (22).
pub fn argument_error(why: FillError) -> io::Error {
    match why {
        FillError::TooLong => io::Error::from_raw_os_error(36),
        FillError::NotPresent => io::Error::from_raw_os_error(22),
    }
}

// The kind of argument `i`. One longer than a path may be is a name that cannot be opened.
fn kind_at<R: Env>(rt: &R, i: usize) -> Argument {
    let mut name = [0u8; 4096];
    match rt.arg(i, &mut name) {
        Ok(n) => kind(&name[..n]),
        Err(_) => Argument::File,
    }
}

// What the arguments from the first on ask.
pub fn asked<R: Env>(rt: &R) -> Asks {
    let mut asks = Asks::Files;
    for i in (1..arg_count(rt)).rev() {
        asks = first_of(kind_at(rt, i), i, asks);
    }
    asks
}

// Writes to standard error, or to what stands for it. Where that fails nobody can be told.
fn write_error<E: Write>(errors: &mut E, bytes: &[u8]) {
    let _ = errors.write_all(bytes);
}

// Tells that argument `i` is an option that `program` does not have.
pub fn refuse<R: Env, E: Write>(rt: &R, errors: &mut E, program: &[u8], i: usize) {
    write_error(errors, program);
    write_error(errors, b": unknown option ");
    let mut name = [0u8; 4096];
    if let Ok(n) = rt.arg(i, &mut name) {
        write_error(errors, &name[..n]);
    }
    write_error(errors, b" (--help says what there is)\n");
}

// The text of an error of the system without the number that std puts behind it in brackets.
fn without_number(text: &[u8]) -> &[u8] {
    let end = text
        .iter()
        .rposition(|b| *b == b'(')
        .and_then(|i| i.checked_sub(1));
    &text[..end.unwrap_or(text.len())]
}

// Writes a line to standard error: what failed, a colon and the cause.
pub fn fail<E: Write>(errors: &mut E, what: &[u8], cause: io::Error) {
    let mut text = Cursor::new([0u8; 512]);
    let _ = write!(text, "{cause}");
    let n = text.position().min(512) as usize;
    let bytes = text.into_inner();
    write_error(errors, what);
    write_error(errors, b": ");
    if cause.raw_os_error().is_some() {
        write_error(errors, without_number(&bytes[..n]));
    } else {
        write_error(errors, &bytes[..n]);
    }
    write_error(errors, b"\n");
}

// The same, where the cause may not be known.
fn fail_by<E: Write>(errors: &mut E, what: &[u8], cause: Option<io::Error>) {
    match cause {
        Some(e) => fail(errors, what, e),
        None => {
            write_error(errors, what);
            write_error(errors, b": failed\n");
        }
    }
}

// Tells why a call on what `name` names failed.
fn fail_name<E: Write>(errors: &mut E, name: &[u8], cause: Option<io::Error>) {
    match kind(name) {
        Argument::Input => fail_by(errors, b"standard input", cause),
        Argument::File | Argument::Help | Argument::Unknown => fail_by(errors, name, cause),
    }
}

// What is read: a file that was opened, or standard input.
#[derive(Drop)]
pub enum Source<F, I> {
    File(F),
    Input(I),
}

impl<F: Read, I: Read> Read for Source<F, I> {
    fn read(&mut self, buf: &mut [u8]) -> io::Result<usize> {
        match self {
            Source::File(f) => f.read(buf),
            Source::Input(i) => i.read(buf),
        }
    }
}

// Opens the file of a name; a name of the system is text to std.
fn open_file<R: Files>(rt: &R, name: &[u8]) -> io::Result<R::File> {
    match std::str::from_utf8(name) {
        Ok(path) => File::open(rt, path),
        Err(_) => Err(io::Error::from(io::ErrorKind::InvalidFilename)),
    }
}

// Opens what `name` names; nothing where that fails, which is told.
pub fn open<R: Files + Input, E: Write>(
    rt: &R,
    errors: &mut E,
    name: &[u8],
) -> Option<Source<R::File, R::Reader>> {
    if let Argument::Input = kind(name) {
        return Some(Source::Input(rt.reader()));
    }
    match open_file(rt, name) {
        Ok(file) => Some(Source::File(file)),
        Err(e) => {
            fail_name(errors, name, Some(e));
            None
        }
    }
}

// Closes what was opened; standard input stays open.
pub fn close<F: Drop, I: Drop>(source: Source<F, I>) {
    let _ = source;
}

// How reading an input, and printing what it gives, ended: a read or a write that failed has its cause, where that is known.
#[derive(Clone, Copy)]
pub enum Why {
    Ended,
    ReadFailed(Option<io::Error>),
    WriteFailed(Option<io::Error>),
    Limit,
}

// What became of an input: how many bytes were read, how many were sent, modulo 2^64, and how that ended.
#[derive(Clone, Copy)]
pub struct Done {
    pub total: u64,
    pub sent: u64,
    pub why: Why,
}

// By what the last read brought, and the cause where a write failed.
#[tactic(auto, unfolding(crate::specs::Tool::why_of))]
pub fn ended_by(brought: Brought, failed: Option<io::Error>) -> Why
    ensures { result ≡ why_of brought failed }
{
    if let Some(e) = failed {
        return Why::WriteFailed(Some(e));
    }
    match brought {
        Brought::Some | Brought::Ended => Why::Ended,
        Brought::Failed(e) => Why::ReadFailed(Some(e)),
        Brought::Limit => Why::Limit,
    }
}

// Tells on standard error what ended the reading of `name`, unless its end did. Answers whether the next input is read: after a write that
// failed none is.
#[tactic(auto, unfolding(crate::specs::Tool::next_read))]
pub fn tell<E: Write>(errors: &mut E, name: &[u8], why: Why) -> bool
    ensures { result ≡ next_read why }
{
    match why {
        Why::Ended => {}
        Why::ReadFailed(cause) => fail_name(errors, name, cause),
        Why::WriteFailed(cause) => fail_by(errors, b"standard output", cause),
        Why::Limit => {
            write_error(errors, name);
            write_error(errors, b": no more is read, after nearly 2^64 bytes\n");
        }
    }
    !matches!(why, Why::WriteFailed(_))
}

// Reads by `run` the input that `name` names. Whether the next one is read.
fn read_name<R: Files + Input, E: Write, F: Fn(&mut Source<R::File, R::Reader>) -> Done>(
    rt: &R,
    errors: &mut E,
    name: &[u8],
    run: &F,
) -> bool
    requires { F.IsAlwaysCallable run.now }
    ensures { result ≡ false → WriteFailedIn (F.post run.now) }
{
    match open(rt, errors, name) {
        None => true,
        Some(opened) => {
            let mut source = opened;
            let done = run(&mut source);
            close(source);
            tell(errors, name, done.why)
        }
    }
}

// The same of argument `i`; `what` is told in place of a name that cannot be had.
fn read_argument<R: Env + Files + Input, E: Write, F: Fn(&mut Source<R::File, R::Reader>) -> Done>(
    rt: &R,
    errors: &mut E,
    what: &[u8],
    i: usize,
    run: &F,
) -> bool
    requires { F.IsAlwaysCallable run.now }
    ensures { result ≡ false → WriteFailedIn (F.post run.now) }
{
    let mut name = [0u8; 4096];
    match rt.arg(i, &mut name) {
        Ok(n) => read_name(rt, errors, &name[..n], run),
        Err(e) => {
            fail(errors, what, argument_error(e));
            true
        }
    }
}

// Reads by `run` each input that the arguments name, in order; standard input where none is named. Whether all were read: after a write
// that failed none is.
pub fn read_each<R: Env + Files + Input, E: Write, F: Fn(&mut Source<R::File, R::Reader>) -> Done>(
    rt: &R,
    errors: &mut E,
    what: &[u8],
    run: F,
) -> bool
    requires { F.IsAlwaysCallable run }
    ensures { result ≡ false → WriteFailedIn (F.post run) }
{
    let count = arg_count(rt);
    if count < 2 {
        return read_name(rt, errors, b"-", &run);
    }
    for i in 1..count {
        if !read_argument(rt, errors, what, i, &run) {
            return false;
        }
    }
    true
}

// Prints a program's help.
pub fn help<W: Write, E: Write>(writer: &mut W, errors: &mut E, text: &[u8]) {
    if let Err(e) = writer.write_all(text) {
        fail(errors, b"standard output", e);
    }
}
