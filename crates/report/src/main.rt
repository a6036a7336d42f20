// The program `report`: judges a recorded drive, from a file or from standard input, and writes its report. What goes wrong is told on
// standard error, and no report is written then.
#![tactic(auto)]

use std::env::FillError;
use std::io::{Error, Read};
use std::rt::{Env, Files};
use std::{fs, str};

// The system's words for an error: std's text without the number that it ends with.
fn words(text: &str) -> &str {
    match text.split_once(" (os error ") {
        Some((words, _)) => words,
        None => text,
    }
}

// Tells on standard error what failed and why. Where that can't be written there is no other place to tell it.
fn tell(rt: &(impl Eprint + Alloc), what: &str, name: &str, error: Error) {
    let _ = match format!(in rt.alloc(); "{error}") {
        Ok(text) => eprintln!(rt; "report: {what}{name}: {}", words(text.as_str())),
        Err(_) => eprintln!(rt; "report: {what}{name}: {error}"),
    };
}

// Writes a text to standard output.
fn write_out(rt: &(impl Print + Eprint + Alloc), text: &[u8]) {
    if let Err(e) = rt.write_all(text) {
        tell(rt, "output not written", "", e);
    }
}

// Writes the report of a recording.
fn write_report(rt: &(impl Print + Eprint + Alloc), input: &[u8]) {
    let mut area = [0u8; area::AREA_LEN];
    let text = recording::report(&mut area, input);
    write_out(rt, text.as_slice());
}

// Judges the drive that a reader gives; `name` is for messages.
fn judge<R: Read>(rt: &(impl Print + Eprint + Alloc), input: &mut R, name: &str) {
    let mut buf = [0u8; recording::ENOUGH];
    match input::read_full(input, &mut buf) {
        Ok(len) => write_report(rt, &buf[..len]),
        Err(failed) => tell(rt, "cannot read ", name, failed.error),
    }
}

// Judges the drive in a file.
fn judge_file(rt: &(impl Files + Print + Eprint + Alloc), name: &str) {
    match fs::open(rt, name) {
        Ok(mut file) => judge(rt, &mut file, name),
        Err(e) => tell(rt, "cannot open ", name, e),
    }
}

fn help(rt: &(impl Print + Eprint + Alloc)) {
    write_out(
        rt,
        b"usage: report [FILE]
Judges a recorded drive: reads sample records of 16 bytes, one for each second from 0 on, from FILE or else from standard input.
It writes three lines:
  samples N           the samples taken
  broken M            the broken rules, in hexadecimal: bit k of M is set where rule k is broken (include/rde.h has the rules)
  verdict rule R      not valid; R is the lowest broken rule (whether NOx is above its limit is not shown then)
  verdict exceeded    valid, NOx above its limit
  verdict clean       valid, NOx not above its limit
or, where a record is refused, one line:
  refused R at K      R is the number of the refusal (include/rde.h), K the samples taken before
What goes wrong is told on standard error, with no report. The exit status is 0 all the same: go by the first word of the output.
",
    );
}

// Whether the program was given an argument of this number; the first after its name is 1. Not by `env::args`: it allocates, and has one error
// for a name that is too long and for one that is not text.
fn has_argument(rt: &impl Env, i: usize) -> bool {
    let mut byte = [0u8; 1];
    !matches!(rt.arg(i, &mut byte), Err(FillError::NotPresent))
}

fn main(rt: HostRuntime) {
    if !has_argument(&rt, 1) {
        judge(&rt, &mut rt.stdin(), "standard input");
        return;
    }
    if has_argument(&rt, 2) {
        let _ = eprintln!(rt; "report: one file at most; report --help says more");
        return;
    }
    let mut word = [0u8; 4096];
    let Ok(len) = rt.arg(1, &mut word) else {
        let _ = eprintln!(rt; "report: the file's name: File name too long");
        return;
    };
    match str::from_utf8(&word[..len]) {
        Ok("--help") => help(&rt),
        Ok(name) => judge_file(&rt, name),
        Err(_) => {
            let _ = eprintln!(rt; "report: the file's name: not UTF-8 text");
        }
    }
}
