// A value is stored in one step, where notes aren't kept and no call waits for its key.
pub(crate) mod flash;
pub(crate) mod short;
