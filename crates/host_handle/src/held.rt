//! What a host in C holds behind a handle.
use host_programs::Opened;
use host_tables::{HostReader, HostTable};
use world::World;

/// One of the values that the library hands to C. A handle can be asked which it has.
#[derive(Drop)]
pub enum Held {
    /// A program, which other handles may share, and room for its runs.
    Program(Opened),
    /// A world of maps and programs.
    World(World),
    /// A table with its writer.
    Table(HostTable),
    /// A reader of a table.
    Reader(HostReader),
    /// Nothing: a box that was made before what it is to hold, so that want of memory loses nothing.
    Room,
}
