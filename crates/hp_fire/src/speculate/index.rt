//! The two ways in which the tasks of a group are numbered, both from 0.

/// The index of a task in its group.
pub(crate) type GroupIndex = usize;

/// The number of a task in a wave, which has those that weren't settled when it began.
pub(crate) type WaveIndex = usize;
