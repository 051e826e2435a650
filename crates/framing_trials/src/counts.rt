// How many things were tried, and of how many something holds.

#[derive(Clone, Copy, Default)]
pub(crate) struct Counts {
    pub(crate) tried: usize,
    pub(crate) hits: usize,
}

impl Counts {
    pub(crate) fn count(&mut self, hit: bool) {
        self.tried = self.tried.saturating_add(1);
        self.hits = self.hits.saturating_add(usize::from(hit));
    }
}
