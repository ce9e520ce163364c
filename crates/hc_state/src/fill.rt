// Fills: they are taken, results are handed in, and what flash brought is linked as a fill ends. What an end needs is
// made first (`plan`, `room`, `link`), and then it can't be refused (`commit`).
pub(crate) mod bring;
pub(crate) mod commit;
pub(crate) mod finish;
pub(crate) mod link;
pub(crate) mod mark;
pub(crate) mod plan;
pub(crate) mod room;
pub(crate) mod take;
