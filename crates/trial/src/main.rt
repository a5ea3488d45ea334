// The trial program of document 01, on the files that its arguments name or on standard input. What is read and printed of each is the
// contract of `trial_io::run`; which are read, in which order, and what is told on standard error stays by reading.
#![tactic(auto)]

use std::io;
use std::io::Write;
use tool::Asks;

fn help<R: Print, E: Write>(rt: &R, errors: &mut E) {
    tool::help(
        &mut io::writer(rt),
        errors,
        b"usage: trial [FILE]...\n\
\n\
The trial: eight clients and a server, moved by lines of input.\n\
Reads the files in order, each from a fresh trial; - is standard input, which is\n\
read too where no file is named. Numbers of lines begin again with each file.\n\
\n\
A line is one of these, its words parted by single spaces:\n\
\x20 I CLIENT KIND CELL AMOUNT   the client invokes an operation\n\
\x20 D CLIENT                    the server's next message is delivered to the client\n\
CLIENT is 1 to 8, the other numbers are 0 to 255.\n\
\n\
Prints a line for each: its number, the client, and one of\n\
\x20 placed SEQ           the operation has a place\n\
\x20 answer SEQ ANSWER    it was done, and this is its answer\n\
\x20 aside SEQ            it was set aside\n\
\x20 confirm SEQ STATUS   an operation was confirmed, 1 done, 0 aside\n\
\x20 empty                there is no message to deliver\n\
\x20 full                 256 messages or more wait for a client: nothing was done\n\
\x20 no NUMBER            refused     halt NUMBER   the client halted\n\
\x20 bad                  the line is none of the two, or has 65,536 bytes or more; client 0\n\
\n\
A file that cannot be opened or read is told on standard error, and the next is\n\
read; after a write that fails nothing is. There is no exit status: it is always 0.\n",
    );
}

fn main(rt: HostRuntime) {
    let mut errors = rt.stderr();
    match tool::asked(&rt) {
        Asks::Help => help(&rt, &mut errors),
        Asks::Unknown(i) => tool::refuse(&rt, &mut errors, b"trial", i),
        Asks::Files => {
            tool::read_each(
                &rt,
                &mut errors,
                b"argument",
                |source| trial_io::run(source, &mut io::writer(&rt)),
            );
        }
    }
}
