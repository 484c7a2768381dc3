//! What a step comes to.
use bpf_model::{Helper, Width};

/// What an instruction asks of the world around its run: words stand for references.
#[derive(Clone, Copy, Debug, PartialEq, Eq)]
pub enum Request {
    /// The number of so many bytes at an offset in bytes from the word of an address.
    Load {
        address: u64,
        offset: i16,
        width: Width,
    },
    /// The low bytes of a number, to be stored at an offset in bytes from the word of an address.
    Store {
        address: u64,
        offset: i16,
        width: Width,
        number: u64,
    },
    /// A helper; its arguments stand in the run's registers and frame.
    Call {
        helper: Helper,
    },
    /// A read-side lock is taken; the outermost enters a section.
    Enter,
    /// A read-side lock is given up; the outermost leaves the section.
    Leave,
}

/// What a step came to.
#[derive(Clone, Copy, Debug, PartialEq, Eq)]
pub enum Local {
    /// The run stands before another instruction.
    Moved,
    /// The run is as before, and waits for the world's reply.
    Shared(Request),
    /// The run has exited with this value.
    Exit(u64),
}

/// Where an instruction leads.
#[derive(Clone, Copy, Debug, PartialEq, Eq)]
pub enum Next {
    /// The run goes on with the instruction behind this one.
    On,
    /// The run jumps to the instruction of this index.
    At(usize),
    /// The run is as before, and waits for the world's reply.
    Shared(Request),
    /// The run exits with this value.
    Exit(u64),
}
