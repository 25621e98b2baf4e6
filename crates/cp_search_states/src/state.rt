//! The state of a search.

use cp_kernel::kernel::Kernel;
use cp_private::private_box::PrivateBox;

/// The private states of all processes by number, from 1, and a kernel.
#[derive(Drop)]
pub struct SearchState {
    pub privates: Vec<PrivateBox>,
    pub kernel: Kernel,
}
