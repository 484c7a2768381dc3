//! What readers of a table do again and again.

/// Which table it is.
#[derive(Clone, Copy)]
pub enum Kind {
    /// A `ReadTable`.
    Read,
    /// A `MapTable`.
    Map,
}

/// What a reader does.
#[derive(Clone, Copy)]
pub enum Deed {
    /// Runs of a program that looks a key up and loads a word of its value.
    Runs,
    /// Lookups of keys that are there, each in a section of its own, and a load of the value.
    Hits,
    /// Lookups of keys that are not there, each in a section of its own.
    Misses,
}

/// A deed at a table, and its name.
#[derive(Clone, Copy)]
pub struct Task {
    pub name: &'static str,
    pub kind: Kind,
    pub deed: Deed,
}

/// A task.
fn make_task(name: &'static str, kind: Kind, deed: Deed) -> Task {
    Task { name, kind, deed }
}

/// The tasks, in the order in which they are printed.
pub fn tasks() -> [Task; 6] {
    [
        make_task("read_run", Kind::Read, Deed::Runs),
        make_task("read_hit", Kind::Read, Deed::Hits),
        make_task("read_absent", Kind::Read, Deed::Misses),
        make_task("map_run", Kind::Map, Deed::Runs),
        make_task("map_hit", Kind::Map, Deed::Hits),
        make_task("map_absent", Kind::Map, Deed::Misses),
    ]
}

/// The task of a name.
pub fn task_named(name: &str) -> Option<Task> {
    for task in tasks() {
        if task.name == name {
            return Some(task);
        }
    }
    None
}
