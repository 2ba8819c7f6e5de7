use basics::node::NodeNumber;

// An entry of a step buffer: the end of a script, which stands where the script begins, or a step of it.
#[derive(Clone, Copy, Drop)]
pub enum Step {
    End,
    Lock(NodeNumber),
    Release(NodeNumber),
    Read(NodeNumber),
    Write(NodeNumber, i32),
    Adjust(NodeNumber, i32),
}
