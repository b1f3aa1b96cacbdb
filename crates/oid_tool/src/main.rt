//! Prints a line for each line of standard input: an object identifier as octets, text or name.
#![tactic(auto)]

mod command;
mod run;

use run::{ToolError, run};
use std::io::Write;
use std::process::ExitCode;

fn main(rt: HostRuntime) -> ExitCode {
    let mut input = rt.stdin();
    let mut output = rt.stdout();
    let result = run(&mut input, &mut output).and_then(|()| output
        .flush()
        .map_err(|_| ToolError::Write));
    if let Err(error) = result {
        let _ = eprintln!(rt; "oid_tool: {error}");
        return ExitCode::FAILURE;
    }
    ExitCode::SUCCESS
}
