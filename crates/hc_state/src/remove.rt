// Removes: what one needs is made first (`plan`), and then it can't be refused (`commit`).
pub(crate) mod commit;
pub(crate) mod plan;
