//! Checks a rule base before it runs: reads a script from standard input, and writes what is proved of its rules.
//!
//! A file that `--signals` names declares what signals carry that come later, from outside the script.
#![tactic(auto)]

mod asked;
mod checking;
mod lines;
mod marks;
mod program;
mod shown;
mod spots;
mod verdicts;
mod walk;

use asked::asked_of;
use hp_report::Watched;
use program::program;
use std::process::ExitCode;

fn main(rt: HostRuntime) -> ExitCode {
    let asked = asked_of(&rt);
    let mut reader = Watched::new(rt.stdin());
    let mut writer = Watched::new(rt.stdout());
    let ended = program(rt.alloc(), asked, &mut reader, &mut writer);
    if let Some(stop) = &ended.stop {
        let _ = eprintln!(rt; "{stop}");
    }
    ExitCode::from(ended.code)
}
