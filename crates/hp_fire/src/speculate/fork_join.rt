//! Calls on threads of their own.

ghost use Rattle.std.specs.Prelude.{[], ◌∷◌, ◌++◌, ◌≡◌, Some, Ok, IfOk, IsSome, IfSome};
ghost use denote.Param.Send.{IsSync, IsSend};
ghost use Rattle.std.specs.Global.{Vec};
ghost use Rattle.std.specs.Fork.{AcceptsJobs};
ghost use Rattle.std.specs.Fork.Halves.{GivesFor};

use std::alloc::{AllocError, Global};
use std::thread::Threads;
use std::{mem, thread};

/// Calls a function for each job, and another function besides, each on a thread of its own if one can be started. The
/// results are in the order of the jobs.
///
/// This thread starts all others, and then sleeps until they end. Linux mostly puts a new thread on the processor of
/// the thread that starts it. So a thread that was just started should start no other, and a starter that goes on
/// working would delay the thread that waits for its processor (measured, `bench/README.md`).
///
/// After an error the results are dropped.
#[cycle(fork_join)]
pub(crate) fn on_threads<
    R: Threads + Sync,
    J: Send + Drop,
    X: Send + Drop,
    F: Fn(J) -> X + Sync,
    Y: Send + Drop,
    H: FnMut() -> Y + Send,
>(
    rt: &R,
    alloc: Global,
    f: &F,
    mut jobs: Vec<J>,
    besides: &mut H,
) -> (Result<Vec<X>, AllocError>, Y)
    requires jobs { AcceptsJobs F.Fn f.now jobs.items }
    requires besides { H.pre besides.old }
    ensures jobs { IfOk result.0 (λ results. GivesFor F.Fn f.now jobs.items results.items) }
    ensures besides { H.step besides.old result.1 besides.new }
{
    let Some(job) = jobs.pop() else {
        return (Ok(Vec::new(alloc)), alone(rt, besides));
    };
    let mut job = Some(job);
    let mut apart = || -> X
        requires { IsSync F.row × IsSend J.row × IsSend X.row × IsSome job × IfSome job (F.pre f.now) }
        ensures { IfSome job.entry (λ j. GivesFor F.Fn f.entry.now (j ∷ []) (result ∷ [])) }
    { f(take_value(&mut job)) };
    let mut rest = || -> (Result<Vec<X>, AllocError>, Y)
        requires { AcceptsJobs F.Fn f.now jobs.items × H.pre besides.now × IsSend H.row × IsSend Y.row }
        ensures { IfOk result.0 (λ results. GivesFor F.Fn f.entry.now jobs.entry.items results.items)
            × H.step besides.entry.now result.1 besides.exit.now }
    {
        on_threads(
            rt,
            alloc,
            f,
            mem::replace(&mut jobs, Vec::new(alloc)),
            besides,
        )
    };
    let (last, (results, own)) = thread::join_mut(rt, &mut apart, &mut rest);
    (with_last(results, last), own)
}

// Calls a function on a thread of its own.
fn alone<R: Threads, Y: Send + Drop, H: FnMut() -> Y + Send>(rt: &R, besides: &mut H) -> Y
    requires { H.pre besides.old }
    ensures { H.step besides.old result besides.new }
{
    let mut nothing = || {};
    let (own, ()) = thread::join_mut(rt, besides, &mut nothing);
    own
}

/// Takes what an option has.
pub(crate) fn take_value<J: Drop>(job: &mut Option<J>) -> J
    requires { IsSome job.old }
    ensures { job.old ≡ Some result }
{
    let Some(job) = job.take() else {
        unreachable!();
    };
    job
}

// Results with one more at their end.
fn with_last<X: Drop>(results: Result<Vec<X>, AllocError>, last: X) -> Result<Vec<X>, AllocError>
    ensures { IfOk result (λ all. (before : Vec X) × (results ≡ Ok before)
        × (all.items ≡ before.items ++ last ∷ [])) }
{
    let mut all = results?;
    all.push(last)?;
    Ok(all)
}
