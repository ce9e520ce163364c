// Calls that wait for a key from flash: they begin to wait, what serving them needs is made (`plan`), they are served
// (`commit`), and their replies are taken.
pub(crate) mod begin;
pub(crate) mod commit;
pub(crate) mod end;
pub(crate) mod plan;
pub(crate) mod reply;
