//! The cache for C: a static library over the core, with flash behind its pools or without, whose log is counted.
//!
//! C holds a handle to a cache, and handles to values that it reads; where there is none, a handle is all zeros. Each call
//! takes what is in its handle out, does what the core does, and puts it back, so that it is safe for whatever its types
//! allow. It answers a status (`Status`) by its number.
#![tactic(auto)]

mod cache;
mod cache_handle;
mod cache_seat;
mod calls;
mod closing;
mod image;
mod image_handle;
mod image_seat;
mod items;
mod jobs;
mod leases;
mod loading;
mod making;
mod pages;
mod parts;
mod reading;
mod status;
mod telling;
mod value_handle;
mod value_seat;
mod values;
mod workers;

pub use cache::Cache;
pub use cache_handle::CacheHandle;
pub use closing::{
    Mark, kilambosetry_close, kilambosetry_image_copy, kilambosetry_image_free,
    kilambosetry_image_next,
};
pub use image::{Image, Stream};
pub use image_handle::ImageHandle;
pub use items::{kilambosetry_add, kilambosetry_delete, kilambosetry_get, kilambosetry_set};
pub use jobs::Operation;
pub use leases::{
    kilambosetry_ask_turn, kilambosetry_end_turn, kilambosetry_set_leased, kilambosetry_ticket,
};
pub use loading::{
    kilambosetry_image_take, kilambosetry_load, kilambosetry_load_end, kilambosetry_load_with_flash,
};
pub use making::{
    Flash, Pool, kilambosetry_free, kilambosetry_new, kilambosetry_new_shard,
    kilambosetry_new_shard_with_flash, kilambosetry_new_with_flash,
    kilambosetry_new_with_flash_and_slots, kilambosetry_new_with_slots, kilambosetry_shard_of,
};
pub use pages::{kilambosetry_finish_page, kilambosetry_order_page, kilambosetry_page_new};
pub use reading::Reading;
pub use status::Status;
pub use telling::{
    Counts, LossCounts, Usage, kilambosetry_calls, kilambosetry_counts, kilambosetry_is_expired,
    kilambosetry_losses, kilambosetry_queue_length, kilambosetry_tick, kilambosetry_usage,
};
pub use value_handle::ValueHandle;
pub use values::{
    kilambosetry_read, kilambosetry_take_reply, kilambosetry_value_copy, kilambosetry_value_free,
    kilambosetry_value_length,
};
pub use workers::{
    kilambosetry_filler_take, kilambosetry_finish_failed, kilambosetry_finish_read,
    kilambosetry_finish_write, kilambosetry_order, kilambosetry_reclaim, kilambosetry_writer_take,
};
