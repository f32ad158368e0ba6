//! Decimals as they are read, before a unit gives them a length.
//! Source: SPECCTRA reference, number descriptors.

/// A decimal: `digits` times ten to the `exponent`, below zero where `negative` is set.
#[derive(Clone, Copy)]
pub struct Decimal {
    pub negative: bool,
    pub digits: u64,
    pub exponent: i32,
}
