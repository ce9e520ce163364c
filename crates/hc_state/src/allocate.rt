// Items are allocated, leave for flash to make room, and are given up.
pub(crate) mod charge;
pub(crate) mod discard;
pub(crate) mod evict;
