//! Units: bodies that ran on a snapshot.

ghost use Rattle.std.specs.Prelude.{◌≡◌, IfOk, IfSome, IfNone};
ghost use Rattle.hp_model.specs.Cells.{Holds};
ghost use Rattle.hp_store.specs.Stack.{cells_in};
ghost use Rattle.hp_attempt.specs.Holding.{FirstFailed};
ghost use Rattle.hp_sessions.specs.Units.{IsSound};

use hp_attempt::first_failed;
use hp_fire::ByThreads;
use hp_rule::{Body, Unit as Item};
use hp_store::{Layer, Snapshot, Store};
use hp_top::attempt_unit;
use hp_tree::UnitReport;
use hp_view::{Reads, Seen, View};
use std::alloc::{AllocError, Global};
use std::marker::Model;
use std::sync::Arc;
use std::thread::Threads;

/// A body that ran on a snapshot, at a moment of the clock: what it read, what it writes, and its report.
///
/// It stands for the body, at that moment, on each state in which its reads hold, so a book commits it if they do.
#[derive(Debug, Drop)]
pub struct Unit {
    body: Body,
    time: u64,
    reads: Reads,
    layer: Arc<Layer>,
    reply: Arc<UnitReport>,
}

impl Model for Unit {
    ghost use Rattle.std.specs.Coded.{codes};
    ghost use Rattle.hp_rule.specs.contracts.body.Body as of_body;
    ghost use Rattle.hp_tree.specs.contracts.report.UnitReport as of_report;
    ghost use Rattle.hp_view.specs.Codes.{read_code};
    ghost use Rattle.hp_store.specs.Codes.{cell_code, value_code};
    ghost use Rattle.hp_sessions.specs.Units.{Made, StandsFor};

    ghost Value = { Made };

    ghost coded = { Prim.hlevel
        (codes, of_body.the_row.coded, of_report.the_row.coded, read_code, cell_code, value_code) };

    ghost view = { λ u. record {
      body = u.body;
      time = u.time;
      reads = u.reads;
      layer = u.layer.value;
      reply = u.reply;
    } };

    // On each state in which the reads hold, the body has this report, and leaves the state overwritten by the layer.
    ghost invariant = { λ u. StandsFor u.body u.time u.reads u.layer.value u.reply };
}

impl Unit {
    /// Runs a body on a snapshot, as a transaction of its own with the cascade of what that detaches. It takes no lock.
    /// `time` is the clock's moment for all of it; without a clock it is 0, where a clock begins.
    ///
    /// Groups of firings use at most `width` threads. After an error the body is dropped.
    pub fn make<R: Threads + Sync>(
        rt: &R,
        alloc: Global,
        snapshot: Snapshot,
        time: u64,
        body: Body,
        width: usize,
    ) -> Result<Unit, AllocError>
        ensures body { IfOk result (λ u. u.body ≡ body) }
        ensures time { IfOk result (λ u. u.time ≡ time) }
        ensures sound { IfOk result (λ u. IsSound u) }
        ensures reads { IfOk result (λ u. Holds (cells_in snapshot) u.reads) }
    {
        let library = Arc::try_clone(body.library())?;
        let item = Item::Transaction { time, body };
        let attempt = attempt_unit(&ByThreads::new(rt), alloc, &library, snapshot, &item, width)?;
        let reply = Arc::new(alloc, attempt.report)?;
        let Item::Transaction { time, body } = item else {
            unreachable!()
        };
        Ok(Unit {
            body,
            time,
            reads: attempt.reads,
            layer: attempt.layer,
            reply,
        })
    }

    /// The body.
    pub fn body(&self) -> &Body
        ensures { result.now ≡ self.now.body }
    {
        &self.body
    }

    /// The clock's moment when the body ran.
    pub fn time(&self) -> u64
        ensures { result ≡ self.now.time }
    {
        self.time
    }

    /// The report of the body.
    pub fn reply(&self) -> &Arc<UnitReport>
        ensures { result.now ≡ self.now.reply }
    {
        &self.reply
    }

    /// The first read that doesn't hold in the store, by what was read; `None` if all of them hold.
    pub(crate) fn first_failed(
        &self,
        alloc: Global,
        store: &Store,
    ) -> Result<Option<Seen>, AllocError>
        ensures none { IfOk result (λ r. IfNone r (Holds (cells_in store.now) self.now.reads)) }
        ensures some { IfOk result (λ r. IfSome r (λ seen. FirstFailed (cells_in store.now) self.now.reads seen)) }
    {
        let view = View::new(alloc, store.snapshot()?)?;
        match first_failed(&self.reads, &view) {
            Some(seen) => Ok(Some(*seen)),
            None => Ok(None),
        }
    }

    /// What it writes, shared.
    pub(crate) fn layer(&self) -> Result<Arc<Layer>, AllocError>
        ensures { IfOk result (λ l. l.value ≡ self.now.layer) }
    {
        Arc::try_clone(&self.layer)
    }

    /// The body and its report.
    pub(crate) fn into_parts(self) -> (Body, Arc<UnitReport>)
        ensures parts { result ≡ (self.body, self.reply) }
        ensures sound { IsSound self }
    {
        let Unit {
            body,
            time: _,
            reads: _,
            layer: _,
            reply,
        } = self;
        (body, reply)
    }
}
