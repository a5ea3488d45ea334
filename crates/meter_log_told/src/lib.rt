// What the log program tells of each line. Definitions: specs/Told.antt.
#![tactic(auto)]

ghost use Rattle.std.specs.Prelude.{◌≡◌};
ghost use Rattle.meter_log_told.specs.declared.Log.TheVariants.{Start, Under};
ghost use Rattle.meter_log_told.specs.Told.{tell_header, tell_reading, tell_line, tell_long, tell_whole, tell_last};

use log_columns::Columns;
use meter_log::Refusal;
use operation::Operation;

// The most bytes that a line may have, its carriage return counted and its line feed not.
pub const LINE_LIMIT: usize = 65535;

// What is told of a line.
#[derive(Clone, Copy)]
pub enum LineTold {
    Header,
    Made(Operation),
    Refused(Refusal),
    Long,
}

// The log between two lines: before the first; under the first; under a first line that was over-long.
#[derive(Clone, Copy)]
pub enum Log {
    Start,
    Under(Option<Columns>),
    Long,
}

#[derive(Clone, Copy)]
pub struct LogStep {
    pub log: Log,
    pub told: LineTold,
}

#[tactic(auto, unfolding(crate::specs::Told::tell_header))]
fn tell_header(h: Option<Columns>) -> LineTold
    ensures { result ≡ tell_header h }
{
    match h {
        Some(_) => LineTold::Header,
        None => LineTold::Refused(Refusal::Header),
    }
}

#[tactic(auto, unfolding(crate::specs::Told::tell_reading))]
fn tell_reading(reading: Result<Operation, Refusal>) -> LineTold
    ensures { result ≡ tell_reading reading }
{
    match reading {
        Ok(e) => LineTold::Made(e),
        Err(why) => LineTold::Refused(why),
    }
}

// The first line.
#[tactic(auto, unfolding(crate::specs::Told::tell_line))]
fn tell_first(s: &[u8]) -> LogStep
    ensures { result ≡ tell_line Start s.now }
{
    let h = meter_log::header_in(s);
    LogStep {
        log: Log::Under(h),
        told: tell_header(h),
    }
}

// A line under the first.
#[tactic(auto, unfolding(crate::specs::Told::tell_line))]
fn tell_later(h: Option<Columns>, s: &[u8]) -> LogStep
    ensures { result ≡ tell_line (Under h) s.now }
{
    LogStep {
        log: Log::Under(h),
        told: tell_reading(meter_log::read_in(h, s)),
    }
}

// The line `s`, which is cut already.
#[tactic(auto, unfolding(crate::specs::Told::tell_line))]
fn tell_line(log: Log, s: &[u8]) -> LogStep
    ensures { result ≡ tell_line log s.now }
{
    match log {
        Log::Start => tell_first(s),
        Log::Under(h) => tell_later(h, s),
        Log::Long => LogStep {
            log: Log::Long,
            told: LineTold::Long,
        },
    }
}

// An over-long line. Under a first line that is one, no line can be read.
#[tactic(auto, unfolding(crate::specs::Told::tell_long))]
pub fn tell_long(log: Log) -> LogStep
    ensures { result ≡ tell_long log }
{
    let after = match log {
        Log::Start => Log::Long,
        Log::Under(_) | Log::Long => log,
    };
    LogStep {
        log: after,
        told: LineTold::Long,
    }
}

// A line of which `s` are the bytes before its line feed.
pub fn tell_whole(log: Log, s: &[u8]) -> LogStep
    ensures { result ≡ tell_whole log s.now }
{
    if LINE_LIMIT < s.len() {
        return tell_long(log);
    }
    tell_line(log, log_lines::less_return(s))
}

// A line of which `s` are the bytes before the end of the input.
pub fn tell_last(log: Log, s: &[u8]) -> LogStep
    ensures { result ≡ tell_last log s.now }
{
    if LINE_LIMIT < s.len() {
        return tell_long(log);
    }
    tell_line(log, s)
}
