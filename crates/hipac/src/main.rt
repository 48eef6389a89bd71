//! The rule manager: reads a script from standard input, runs it, and writes its firing report.
#![tactic(auto)]

mod program;
mod running;

use hp_report::Watched;
use hp_words::options_of;
use program::program;
use std::process::ExitCode;

fn main(rt: HostRuntime) -> ExitCode {
    let asked = options_of(&rt);
    let mut reader = Watched::new(rt.stdin());
    let mut writer = Watched::new(rt.stdout());
    let ended = program(&rt, rt.alloc(), asked, &mut reader, &mut writer);
    if let Some(stop) = ended.stop {
        let _ = eprintln!(rt; "{stop}");
    }
    ExitCode::from(ended.code)
}
