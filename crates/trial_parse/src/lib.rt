// A line of the trial program's input read. Definition: specs/Parse.antt.
#![tactic(auto)]

ghost use Rattle.std.specs.Prelude.{◌≡◌};
ghost use Rattle.trial_words.specs.Words.{asked};
ghost use Rattle.trial_parse.specs.Parse.{parse};

use trial_words::Command;

// What a line, without its line feed, asks. By an iterator of words it would be six `next`s and a match on six Options, so it is five
// finds, each of which tells how many words there are.
pub fn parse(line: &[u8]) -> Command
    ensures { asked result ≡ parse line.now }
{
    let n = line.len();
    let a = text::find(line, 0, b' ');
    if a == n {
        return Command::Other;
    }
    let b = text::find(line, a + 1, b' ');
    if b == n {
        return trial_words::deliver_of(&line[0..a], &line[a + 1..b]);
    }
    let c = text::find(line, b + 1, b' ');
    if c == n {
        return Command::Other;
    }
    let d = text::find(line, c + 1, b' ');
    if d == n {
        return Command::Other;
    }
    let e = text::find(line, d + 1, b' ');
    if e != n {
        return Command::Other;
    }
    trial_words::invoke_of(
        &line[0..a],
        &line[a + 1..b],
        &line[b + 1..c],
        &line[c + 1..d],
        &line[d + 1..e],
    )
}
