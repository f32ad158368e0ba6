//! What is called between the steps of a worker.
//! A gate changes no answer; it can only delay.

/// What a worker calls round each of its offers, while it does not hold the turn.
pub trait Gate {
    /// Called after the worker's plan and before its offer. `turn` counts that worker's offers of the pass from 0.
    fn before_offer(&self, worker: u32, turn: u32);

    /// Called after the answer to that offer.
    fn after_answer(&self, worker: u32, turn: u32);
}

/// The gate that does nothing.
#[derive(Clone, Copy, Default)]
pub struct NoGate;

impl Gate for NoGate {
    fn before_offer(&self, _worker: u32, _turn: u32) {}

    fn after_answer(&self, _worker: u32, _turn: u32) {}
}
