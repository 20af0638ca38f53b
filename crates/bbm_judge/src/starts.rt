//! The pages of a root.

ghost use Rattle.std.specs.Prelude.{◌≡◌, ◌≤◌, ◌<◌, ◌+◌, ◌*◌, ◌^◌, true, IfOk};
ghost use Rattle.bbm_events.specs.Fits.{is_root_page};
ghost use Rattle.bbm_rules.specs.Roots as roots;

use bbm_events::Header;
use bbm_regimes::{Kind, NoMemory, PAGE_BYTES, Page};
use std::alloc::Global;

/// So many consecutive pages. `NoMemory` where there is none.
fn pages_from(alloc: Global, first: Page, count: u8) -> Result<Vec<Page>, NoMemory>
    requires { first + PAGE_BYTES * count ≤ 2 ^ 48 }
    ensures { IfOk result (λ pages. pages.items ≡ roots.pages_from first count) }
{
    let mut pages = Vec::new(alloc);
    for index in 0..count {
        pages.push(first.behind(index))?;
    }
    Ok(pages)
}

/// The number of pages of a root of the header.
fn root_page_count(header: &Header, kind: Kind, page: Page) -> u8
    requires { is_root_page header.now.world kind page ≡ true }
    ensures value { result ≡ roots.page_count header.now.world kind }
    ensures fits { page + PAGE_BYTES * result ≤ 2 ^ 48 }
{
    let _ = page.get();
    header.in_ranges();
    header.page_count(kind)
}

/// The pages of a root with this first page; none where the kind isn't one of the header's world. `NoMemory` where
/// there is none. Source: Arm ARM (DDI 0487), "VMSAv8-64 translation table walks", concatenated translation tables.
pub fn root_pages(
    alloc: Global,
    header: &Header,
    kind: Kind,
    page: Page,
) -> Result<Vec<Page>, NoMemory>
    requires { is_root_page header.now.world kind page ≡ true }
    ensures { IfOk result (λ pages. pages.items ≡ roots.root_pages header.now.world kind page) }
{
    if header.has_kind(kind) {
        pages_from(alloc, page, root_page_count(header, kind, page))
    } else {
        Ok(Vec::new(alloc))
    }
}
