//! Where activations continue.

/// Where an activation continues: the number of its next operation, and the address of its
/// component among the words of its process and the shared words after them.
#[derive(Clone, Copy)]
pub struct Activation {
    pub operation: u32,
    pub component: usize,
}
