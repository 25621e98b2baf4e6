//! What a step leaves to the kernel.

/// What a step leaves to the kernel. Monitors and processes are given by their numbers.
#[derive(Clone, Copy)]
pub enum Effect {
    None,
    /// The process asks for the gate of the monitor whose routine it has called.
    Enters(u32),
    /// The process has left the monitor.
    Leaves(u32),
    /// The process has initialised the monitor, whose body it begins.
    Opens(u32),
    /// The process has initialised this process.
    Starts(u32),
    /// The process waits in a queue of the monitor, given by its address.
    Delays { monitor: u32, queue: u32 },
    /// The process has left the monitor by `continue`. `resumed` is what the word of the queue
    /// held: the number of the process that was waiting in it, or 0.
    Continues { monitor: u32, resumed: i32 },
}
