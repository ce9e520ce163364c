// Inserts and adds: what one needs is made first (`plan`, `room`), the item is linked, and then nothing can be refused
// (`commit`, `clear`).
pub(crate) mod clear;
pub(crate) mod commit;
pub(crate) mod insert;
pub(crate) mod link;
pub(crate) mod plan;
pub(crate) mod room;
