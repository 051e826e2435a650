// A line as a plain list: what every line is compared with. It names no part of `line` or `refusal`, so that a mistake there would show.
use std::alloc::{AllocError, Global};
use std::collections::VecDeque;

// Why the list refuses. The numbers are written out from the rules, and not taken from `refusal`.
#[derive(Clone, Copy, PartialEq, Eq, Debug)]
pub(crate) enum Refused {
    NoLevel = 2,
    Full = 16,
    Empty = 17,
}

#[derive(Drop)]
pub(crate) struct Plain {
    pub(crate) places: usize,
    pub(crate) last: u8,
    pub(crate) waiting: VecDeque<u8>,
}

impl Plain {
    pub(crate) fn empty(heap: Global, places: usize, last: u8) -> Self {
        Plain {
            places,
            last,
            waiting: VecDeque::new(heap),
        }
    }

    // A line that holds these levels.
    pub(crate) fn holding(
        heap: Global,
        places: usize,
        last: u8,
        levels: &[u8],
    ) -> Result<Self, AllocError> {
        Ok(Plain {
            places,
            last,
            waiting: VecDeque::from_vec(levels.to_vec(heap)?),
        })
    }

    pub(crate) fn is_full(&self) -> bool {
        self.waiting.len() == self.places
    }

    pub(crate) fn put(&mut self, level: u8) -> Result<Result<u8, Refused>, AllocError> {
        if level > 1 {
            return Ok(Err(Refused::NoLevel));
        }
        if self.is_full() {
            return Ok(Err(Refused::Full));
        }
        self.waiting.push_back(level)?;
        Ok(Ok(0))
    }

    pub(crate) fn take(&mut self) -> Result<u8, Refused> {
        self.last = self.waiting.pop_front().ok_or(Refused::Empty)?;
        Ok(self.last)
    }
}
