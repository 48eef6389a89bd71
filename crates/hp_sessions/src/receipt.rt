//! Receipts.

use crate::name::BookName;
use crate::tokens::Token;
use hp_tree::UnitReport;
use std::marker::{Model, PhantomData};
use std::sync::Arc;

/// The reply to a submitted body, and the number of its entry in the history.
///
/// An aborted body has a receipt too. In contracts a receipt is its number and the entry there, with its session and
/// body.
#[derive(Drop)]
pub struct Receipt<K: BookName> {
    pub(crate) number: u64,
    pub(crate) reply: Arc<UnitReport>,
    pub(crate) token: Token,
    pub(crate) of: PhantomData<K>,
}

impl<K: BookName> Model for Receipt<K> {
    ghost use Rattle.std.specs.Prelude.{◌≡◌, ◌<◌, ◌-◌, [], slice_get};
    ghost use Rattle.std.specs.Coded.{codes};
    ghost use Rattle.hp_sessions.specs.contracts.entry.Entry as of_entry;
    ghost use Rattle.hp_sessions.specs.Books.{ReceiptView, IsReply};

    ghost Value = { ReceiptView };

    ghost coded = { Prim.hlevel (codes, of_entry.the_row.coded) };

    ghost view = { λ r. record { number = r.number; entry = slice_get r.token.me.0.list (r.number - 1) } };

    ghost invariant = { λ r.
        (r.token.table_id ≡ K.table) × (r.token.me.1 ≡ []) × (0 < r.number)
        × IsReply r.reply (slice_get r.token.me.0.list (r.number - 1)) };
}

impl<K: BookName> Receipt<K> {
    ghost use Rattle.std.specs.Prelude.{◌≡◌};
    ghost use Rattle.hp_sessions.specs.Books.{IsReply};

    /// The number of the entry, from 1.
    pub fn number(&self) -> u64
        ensures { result ≡ self.now.number }
    {
        self.number
    }

    /// The report of the body.
    pub fn reply(&self) -> &Arc<UnitReport>
        ensures { IsReply result.now self.now.entry }
    {
        &self.reply
    }
}
