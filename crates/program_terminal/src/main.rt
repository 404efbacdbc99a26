// A card at the terminal. Commands in hexadecimal come from standard input, a line each, and each is answered on a line; other lines open a
// session, ask what the card and the session are, cut a command, or move the card (help.rt). The argument is the file of a card image, which
// holds each change before its command is answered; without it the card is the card to try.
#![tactic(auto)]

mod card;
mod certificates;
mod chain;
mod cuts;
mod extensions;
mod files;
mod help;
mod hex;
mod input;
mod keep;
mod lines;
mod listing;
mod moves;
mod place;
mod rights;
mod stamps;
mod status;
mod text;

use lines::{How, Streams};
use status::Status;
use std::env::FillError;
use std::fs::File;
use std::io::{IsTerminal, Stdin, Stdout};
use std::process::ExitCode;
use std::rt::{Env, Files};

// Whether what is typed stands on the terminal already.
fn is_typed(input: Stdin, out: Stdout) -> bool {
    input.is_terminal() && out.is_terminal()
}

// Answers the lines on a card of n bytes, with room for its image and for what its file holds. Answers how that ended.
fn run_card(
    rt: &impl Files<File = File>,
    streams: Streams,
    image: &mut [u8],
    kept: &mut [u8],
    file: Option<&File>,
    n: usize,
) -> Status {
    if image.len() < n || kept.len() < n {
        return Status::NoCard;
    }
    base::put(kept, 0, base::part(image, 0, n));
    let how = How {
        out: streams.out,
        err: streams.err,
        file,
        echo: !is_typed(streams.input, streams.out),
    };
    input::answer_all(rt, streams.input, &mut image[..n], &mut kept[..n], how)
}

// Runs with an argument.
fn run_argument(
    rt: &impl Files<File = File>,
    streams: Streams,
    argument: &[u8],
    image: &mut [u8],
    kept: &mut [u8],
) -> Status {
    if matches!(argument, b"--help") {
        help::usage(streams.out);
        return Status::Good;
    }
    match card::load(rt, streams.err, argument, image) {
        Ok((file, n)) => run_card(rt, streams, image, kept, Some(&file), n),
        Err(_) => Status::NoCard,
    }
}

// Whether there is an argument i; the first is the program's name.
fn has_argument(rt: &impl Env, i: usize) -> bool {
    let mut none = [0; 1];
    !matches!(rt.arg(i, &mut none), Err(FillError::NotPresent))
}

// How many arguments there are.
fn argument_count(rt: &impl Env) -> usize {
    for i in 0..usize::MAX {
        if !has_argument(rt, i) {
            return i;
        }
    }
    usize::MAX
}

// An argument, put at the start of `out`; none where it is missing or longer than that.
fn argument<'a>(rt: &impl Env, i: usize, out: &'a mut [u8]) -> Option<&'a [u8]> {
    let n = rt.arg(i, out).ok()?;
    out.get(..n)
}

// Runs with the argument at `first`, where there is one.
fn run(
    rt: &(impl Env + Files<File = File>),
    streams: Streams,
    first: usize,
    image: &mut [u8],
    kept: &mut [u8],
) -> Status {
    let count = argument_count(rt);
    if count <= first {
        let n = card::example(image);
        return run_card(rt, streams, image, kept, None, n);
    }
    if first < count - 1 {
        program_console::warn(
            streams.err,
            b"! one card at a time: there is more than one argument\n",
        );
        return Status::NoCard;
    }
    let mut name = program_console::buffer();
    let name = argument(rt, first, &mut name).unwrap_or(&[]);
    run_argument(rt, streams, name, image, kept)
}

// Whether the first argument asks for the exit status.
fn tells_status(rt: &impl Env) -> bool {
    let mut first = program_console::buffer();
    matches!(argument(rt, 1, &mut first), Some(b"--status"))
}

// Runs. Answers the exit status: how it ended where that is asked, and else 0.
fn start(
    rt: &(impl Env + Files<File = File>),
    streams: Streams,
    image: &mut [u8],
    kept: &mut [u8],
) -> ExitCode {
    if tells_status(rt) {
        return ExitCode::from(run(rt, streams, 2, image, kept) as u8);
    }
    run(rt, streams, 1, image, kept);
    ExitCode::SUCCESS
}

fn main(rt: HostRuntime) -> ExitCode {
    let streams = Streams {
        input: rt.stdin(),
        out: rt.stdout(),
        err: rt.stderr(),
    };
    let mut image = program_console::room();
    let mut kept = program_console::room();
    start(&rt, streams, &mut image, &mut kept)
}
