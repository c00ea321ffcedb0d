use crate::event::Event;

/// An event, who caused it, and its ticket. In a lawful history tickets are 0, 1, 2 and so on, each once, and give the order.
#[derive(Clone, Copy, Debug, PartialEq, Eq)]
pub struct Entry {
    pub ticket: u64,
    pub caller: u32,
    pub event: Event,
}
