// Where the pages of regions are: behind those of the buckets.
ghost use Rattle.std.specs.Prelude.{◌≡◌, None};
ghost use Rattle.hc_types.specs.declared.config.FlashConfig.{FlashConfig as Flash};
ghost use Rattle.hc_types.specs.Limits.{flash_wrong};
ghost use Rattle.hc_types.specs.Places as spec;
ghost use Rattle.hc_judge_device.specs.Limits.{IsLimited};

use hc_types::FlashConfig;

/// The law of the limits: a flash of which no number is refused is within those that the judge needs. It does nothing
/// when it runs.
pub fn limits()
    ensures { (flash : Flash) → flash_wrong flash ≡ None → IsLimited flash }
{}

/// How many bytes a region has.
#[must_use]
pub fn region_bytes(flash: &FlashConfig) -> u64
    requires { IsLimited flash.now }
    ensures { result ≡ spec.region_bytes flash.now }
{
    flash.page * flash.region_pages
}

/// Whether the page is one of the region's.
#[must_use]
pub fn is_page_of(flash: &FlashConfig, region: u32, page: u32) -> bool
    requires { IsLimited flash.now }
    ensures { result ≡ spec.is_page_of flash.now region page }
{
    let page = u64::from(page);
    flash.buckets <= page && (page - flash.buckets) / flash.region_pages == u64::from(region)
}

/// The number of the region's last page.
#[must_use]
pub fn last_page(flash: &FlashConfig, region: u32) -> u64
    requires { IsLimited flash.now }
    ensures { result ≡ spec.last_page flash.now region }
{
    flash.buckets + u64::from(region) * flash.region_pages + (flash.region_pages - 1)
}
