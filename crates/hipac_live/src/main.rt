//! The rule manager that stays up: reads lines from standard input and answers each on standard output.
//!
//! The script is the file that `--script` names, or else the first line. Each later line is an item of it, or a
//! question for the state.
#![tactic(auto)]

mod asked;
mod program;

use asked::asked_of;
use hp_report::Watched;
use program::program;
use std::process::ExitCode;

fn main(rt: HostRuntime) -> ExitCode {
    let asked = asked_of(&rt);
    let mut reader = Watched::new(rt.stdin());
    let mut writer = Watched::new(rt.stdout());
    let ended = program(&rt, rt.alloc(), asked, &mut reader, &mut writer);
    if let Some(stop) = &ended.stop {
        let _ = eprintln!(rt; "{stop}");
    }
    ExitCode::from(ended.code)
}
