// How a queue is shown: by how many pieces there are.
use crate::keyed::KeyedQueue;
use crate::queue::Queue;
use std::alloc::Allocator;
use std::fmt;

impl<V, A: Allocator> fmt::Debug for Queue<V, A> {
    fn fmt<W: fmt::Write>(&self, f: &mut fmt::Formatter<W>) -> fmt::Result {
        write!(f, "Queue {{ pieces: {} }}", self.len())
    }
}

impl<V, A: Allocator> fmt::Debug for KeyedQueue<V, A> {
    fn fmt<W: fmt::Write>(&self, f: &mut fmt::Formatter<W>) -> fmt::Result {
        write!(f, "KeyedQueue {{ pieces: {} }}", self.len())
    }
}
