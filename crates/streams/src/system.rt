// The system, as a program calls it.
use program::Program;

// The runtime by which the system is called, and the program whose name stands before what is told.
#[derive(Clone, Copy)]
pub struct System<'a> {
    pub rt: &'a HostRuntime,
    pub program: Program,
}
