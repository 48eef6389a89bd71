//! Turns a script in the text notation into JSON, and one in JSON into its canonical text.
#![tactic(auto)]

mod answers;
mod members;
mod program;
mod running;
mod words;

use hp_report::Watched;
use program::program;
use std::process::ExitCode;
use words::task_of;

fn main(rt: HostRuntime) -> ExitCode {
    let asked = task_of(&rt);
    let mut reader = Watched::new(rt.stdin());
    let mut writer = Watched::new(rt.stdout());
    let ended = program(rt.alloc(), asked, &mut reader, &mut writer);
    if let Some(stop) = ended.stop {
        let _ = eprintln!(rt; "{stop}");
    }
    ExitCode::from(ended.code)
}
