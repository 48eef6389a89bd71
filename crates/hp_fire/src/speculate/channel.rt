//! Channels over which the workers of a wave send attempts to the owner of the group.

ghost use Rattle.std.specs.Prelude.{◌≡◌, ℕ, IfOk, IfSome};
ghost use Rattle.rtrb.specs.Ring.{sent, received};
ghost use Rattle.hp_model.specs.Rules.{Library as ModelLibrary};
ghost use Rattle.hp_model.specs.Soundness.{IsSound};
ghost use Rattle.hp_rule.specs.Mapped.{library};
ghost use Rattle.hp_store.specs.Stack.{Stack};
ghost use Rattle.hp_attempt.specs.Mapped.{attempt as attempt_of};
ghost use Rattle.hp_fire.specs.Channels.{IsOf, IsFrom};
ghost use Rattle.hp_fire.specs.Starts.{IsTriedFrom};

use crate::speculate::pending::Tried;
use crate::speculate::policy::CHANNEL_CAPACITY;
use hp_rule::Library;
use hp_store::Snapshot;
use rtrb::{Consumer, Producer, Protocol, PushError, RingBuffer};
use std::alloc::{AllocError, Global};

/// An item of a channel: first what all attempts have in common, and then attempts.
#[derive(Drop)]
pub enum Sent<'a> {
    /// The library for which the attempts are sound, the snapshot of the wave in which the tasks are tried, and how
    /// many tasks of the group were settled before the wave.
    Wave(&'a Library, &'a Snapshot, usize),
    /// An attempt.
    Tried(Tried),
}

/// The channel's rule: each attempt is sound for the library that was sent first, and its reads held in the snapshot
/// that was sent first, under layers of earlier tasks of the wave.
pub struct Soundness;

impl<'a> Protocol<Sent<'a>> for Soundness {
    ghost use Rattle.hp_fire.specs.Channels.{MayFollow};

    ghost allows = { MayFollow };
}

/// The worker's end of a channel.
pub(crate) type Sender<'a> = Producer<Sent<'a>, Global, Soundness>;

/// The owner's end of a channel.
pub type Receiver<'a> = Consumer<Sent<'a>, Global, Soundness>;

/// The ends of a channel for attempts that are sound for this library, at tasks that are tried in a wave from this
/// snapshot, before which `done` tasks of the group were settled.
pub(crate) fn channel<'a>(
    alloc: Global,
    lib: &'a Library,
    snapshot: &'a Snapshot,
    done: usize,
) -> Result<(Sender<'a>, Receiver<'a>), AllocError>
    ensures sender { IfOk result (λ ends. IsOf (library lib.entry.now) (sent ends.0)) }
    ensures sender_from { IfOk result (λ ends. IsFrom snapshot.entry.now done (sent ends.0)) }
    ensures receiver { IfOk result (λ ends. IsOf (library lib.entry.now) (received ends.1)) }
    ensures receiver_from { IfOk result (λ ends. IsFrom snapshot.entry.now done (received ends.1)) }
{
    let (mut sender, mut receiver) = RingBuffer::with_protocol::<Global, Soundness>(
        alloc,
        CHANNEL_CAPACITY,
    )?;
    sender.push_reserved(Sent::Wave(lib, snapshot, done));
    receiver.slots_beside(&mut sender);
    receiver.pop_known();
    Ok((sender, receiver))
}

/// Sends an attempt. It comes back if the channel is full.
pub(crate) fn send(sender: &mut Sender<'_>, tried: Tried) -> Option<Tried>
    requires sound { (l : ModelLibrary) → IsOf l (sent sender.old) → IsSound l (attempt_of tried.attempt) }
    requires tried { (s : Stack) (n : ℕ) → IsFrom s n (sent sender.old) → IsTriedFrom s n tried }
    ensures channel { (l : ModelLibrary) → IsOf l (sent sender.old) → IsOf l (sent sender.new) }
    ensures channel_from { (s : Stack) (n : ℕ) → IsFrom s n (sent sender.old) → IsFrom s n (sent sender.new) }
    ensures back { IfSome result (λ back. back ≡ tried) }
{
    match sender.push(Sent::Tried(tried)) {
        Err(PushError::Full(Sent::Tried(back))) => Some(back),
        _ => None,
    }
}

/// Receives the next attempt, if one has arrived.
pub(crate) fn receive(receiver: &mut Receiver<'_>) -> Option<Tried>
    ensures channel { (l : ModelLibrary) → IsOf l (received receiver.old) → IsOf l (received receiver.new) }
    ensures channel_from { (s : Stack) (n : ℕ) → IsFrom s n (received receiver.old)
        → IsFrom s n (received receiver.new) }
    ensures sound { (l : ModelLibrary) → IsOf l (received receiver.old)
        → IfSome result (λ tried. IsSound l (attempt_of tried.attempt)) }
    ensures tried { (s : Stack) (n : ℕ) → IsFrom s n (received receiver.old) → IfSome result (IsTriedFrom s n) }
{
    match receiver.pop() {
        Ok(Sent::Tried(tried)) => Some(tried),
        _ => None,
    }
}
