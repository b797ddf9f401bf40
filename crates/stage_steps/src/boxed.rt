use crate::reply::Reply;
use crate::stage::Stage;
use crate::strings::Sought;
use pipe_model::{NoMemory, Seen, Want};
use std::alloc::Global;

/// A stage in a box is the stage. A coroutine that goes out with a job is moved, and a box is moved at the cost of a
/// pointer.
impl<T: Stage> Stage for Box<T> {
    ghost stands = { λ x s h. T.stands x.value s h };

    ghost showing = { λ x. T.showing x.value };

    ghost ahead = { λ x. T.ahead x.value };

    fn first(&self) -> Want {
        (**self).first()
    }

    fn resume(&mut self, alloc: Global, seen: Seen, bytes: &[u8]) -> Result<Want, NoMemory> {
        (**self).resume(alloc, seen, bytes)
    }

    #[inline(always)]
    fn see(&mut self, alloc: Global, bytes: &[u8], asked: &mut Want) -> Result<Reply, NoMemory> {
        (**self).see(alloc, bytes, asked)
    }

    #[inline(always)]
    fn put(&mut self, alloc: Global, o: u16, asked: &mut Want) -> Result<(), NoMemory> {
        (**self).put(alloc, o, asked)
    }

    #[inline(always)]
    fn show(&mut self, o: u16) -> bool {
        (**self).show(o)
    }

    #[inline(always)]
    fn shown(&self) -> &[u8] {
        (**self).shown()
    }

    #[inline(always)]
    fn text_ahead(&self) -> &[u8] {
        (**self).text_ahead()
    }

    #[inline(always)]
    fn awaits(&self) -> Option<&Sought> {
        (**self).awaits()
    }

    fn passes(&mut self) -> bool {
        (**self).passes()
    }

    fn looks(&self) -> bool {
        (**self).looks()
    }

    fn kept(&self) -> &[u8] {
        (**self).kept()
    }
}
