//! What a program is verified against.

use bpf_model::MapShape;

/// What is known of whatever a program is run on: the shapes of the maps of its list, and how many
/// bytes its context has.
#[derive(Clone, Copy)]
pub struct EnvironmentShape<'a> {
    pub shapes: &'a [MapShape],
    pub ctx_len: usize,
}
