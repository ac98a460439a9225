//! `mtrace COMMAND [options]` reads standard input where the command does, writes its output to standard output and a
//! message to standard error, and ends with its status as exit status.
#![tactic(auto)]

mod reader_source;
mod words;
mod writer_sink;

use mt_base::OpenGate;
use mtrace_app::mtrace;
use reader_source::ReaderSource;
use std::process::ExitCode;
use writer_sink::WriterSink;

fn main(rt: HostRuntime) -> ExitCode {
    let words = match words::words(&rt) {
        Ok(words) => words,
        Err(error) => return ExitCode::from(words::refusal(&error)),
    };
    let status = mtrace(
        &rt,
        rt.alloc(),
        &words,
        &mut ReaderSource::new(rt.stdin()),
        &mut WriterSink::new(rt.stdout()),
        &mut WriterSink::new(rt.stderr()),
        &OpenGate,
    );
    ExitCode::from(status.exit_number())
}

#[cfg(test)]
mod tests;
