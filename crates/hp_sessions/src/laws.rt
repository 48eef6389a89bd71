//! Laws of histories and receipts.

ghost use Rattle.std.specs.Prelude.{◌≡◌, ◌≢◌, Some};
ghost use Rattle.hp_sessions.specs.Books.{IsLegalBook, Stands, session_of};

use crate::history::History;
use crate::name::BookName;
use crate::receipt::Receipt;

/// The entry at a receipt's number in the history of its book has the receipt's session, body and reply. Both stay as
/// they were.
pub fn kept<K: BookName>(history: &mut History<K>, receipt: &mut Receipt<K>)
    ensures same { (history.new ≡ history.old) × (receipt.new ≡ receipt.old) }
    ensures kept { Stands history.old.history receipt.old }
{
    history.meet(receipt);
}

/// There is a fit state with the opening cells, and from each state with these cells the bodies, run one after another,
/// give the replies and leave the cells of the store.
pub fn legal<K: BookName>(history: &History<K>)
    ensures { IsLegalBook history.now }
{
    history.legal();
}

/// Receipts of sessions with distinct numbers name distinct entries.
pub fn apart<K: BookName>(history: &mut History<K>, one: &mut Receipt<K>, other: &mut Receipt<K>)
    requires { session_of one.old ≢ session_of other.old }
    ensures same { (history.new ≡ history.old) × (one.new ≡ one.old) × (other.new ≡ other.old) }
    ensures apart { one.old.number ≢ other.old.number }
{
    kept(history, one);
    kept(history, other);
}
