// Finds: those that hand out the value (`handle`), what these need first (`plan`), and those that copy it (`copy`).
pub(crate) mod copy;
pub(crate) mod handle;
pub(crate) mod plan;
