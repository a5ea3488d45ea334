// The program that reads meters' logs: standard input, or the files that its arguments name, in order, each as a log of its own. What is
// printed for a log is the contract of `meter_log_io::run`.
#![tactic(auto)]

use std::io;
use std::io::Write;
use tool::Asks;

fn help<R: Print, E: Write>(rt: &R, errors: &mut E) {
    tool::help(
        &mut io::writer(rt),
        errors,
        b"usage: log_export [FILE]...\n\
\n\
Reads meters' logs and prints a line for each of their lines.\n\
Reads the files in order, each as a log of its own; - is standard input, which is\n\
read too where no file is named. Numbers of lines begin again with each file.\n\
\n\
A line has fields parted by commas; a field with commas stands in quotes. The first\n\
line names the columns, `cell`, `flow` and `temp` among them, each once.\n\
\n\
Prints for each line its number, and one of\n  \
header              the first line: the columns were found\n  \
5 CELL FLOW TEMP    a reading, as an operation of kind 5\n  \
no 40               the first line lacks a name, has one twice, or its quotes are\n                      \
not sound; and each line under it\n  \
no 41               its quotes are not sound, or it has other fields than the first\n  \
no 42               a value is no number, or out of range: cell 0 to 15,\n                      \
flow 0 to 255, temperature -40 to 85\n  \
long                it has 65,536 bytes or more, or the first line has\n\
\n\
A file that cannot be opened or read is told on standard error, and the next is\n\
read; after a write that fails nothing is. There is no exit status: it is always 0.\n",
    );
}

fn main(rt: HostRuntime) {
    let mut errors = rt.stderr();
    match tool::asked(&rt) {
        Asks::Help => help(&rt, &mut errors),
        Asks::Unknown(i) => tool::refuse(&rt, &mut errors, b"log_export", i),
        Asks::Files => {
            tool::read_each(
                &rt,
                &mut errors,
                b"log_export: a file's name",
                |source| meter_log_io::run(source, &mut io::writer(&rt)),
            );
        }
    }
}
