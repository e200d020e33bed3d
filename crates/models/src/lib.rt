// The element models on plain numbers: what a source's level is at a time, and what conductance and current a capacitor, an inductor or a diode is replaced by.
// Each file stands beside the Rust's file of its name (the Rust has no inductor) and does the Rust's float operations in the Rust's order. Every public function is total.
#![tactic(auto)]

pub mod capacitor;
pub mod diode;
pub mod inductor;
pub mod sine;
pub mod vpwl;
