//! A gate before the steps of workers.

use std::marker::Sync;

/// What a worker is about to do: take a ticket, cross its wall, meet the key behind it, fill the slot, or look whether all is done.
#[derive(Clone, Copy, Debug, PartialEq, Eq)]
pub enum GateStep {
    Take,
    Cross,
    Meet,
    Fill,
    Look,
}

/// What stands before each step of the workers. It may delay a step, and it lets every step go on.
pub trait Gate: Sync {
    /// Returns once the worker of this number may take the step.
    fn before(&self, worker: u32, step: GateStep);
}

/// The gate that delays nobody.
#[derive(Clone, Copy, Debug, PartialEq, Eq)]
pub struct OpenGate;

impl Gate for OpenGate {
    fn before(&self, _worker: u32, _step: GateStep) {}
}
