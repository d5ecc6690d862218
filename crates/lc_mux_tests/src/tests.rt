//! What is tested.
mod laws;
mod pairs;
