//! How many page tables a map wants below the root, counted item by item.
ghost use Rattle.std.specs.Prelude.{◌≡◌, ◌+◌, ◌<◌, ◌≤◌, ◌^◌, ◌-◌};
ghost use Rattle.std.specs.List.{sum_by, range_with_len};
ghost use Rattle.image_text.specs.Reading as definitions;

/// How many pages the span of a table of a level has.
fn span_pages(level: u8) -> u64
    requires { level ≤ 4 }
    ensures value { result ≡ 512 ^ level }
    ensures some { 0 < result }
    ensures few { result ≤ 2 ^ 36 }
{
    1 << (9 * level)
}

/// The first page of the span of a level that has a page.
fn span_of(level: u8, page: u64) -> u64
    requires { level ≤ 4 }
    ensures value { result ≡ definitions.span_of level page }
    ensures before { result ≤ page }
{
    let span = span_pages(level);
    page / span * span
}

/// Whether a span that has a page from `first` to before `end` has other pages too.
fn is_cut(level: u8, first: u64, end: u64, span: u64) -> bool
    requires level { level ≤ 4 }
    requires wide { span < 2 ^ 44 }
    ensures { result ≡ definitions.is_cut level first end span }
{
    span < first || end < span + span_pages(level)
}

/// Whether the first page's span is cut, and no page before `behind` is in it.
fn is_new_front(behind: u64, first: u64, end: u64, level: u8) -> bool
    requires level { level ≤ 4 }
    requires wide { first < 2 ^ 44 }
    ensures { result ≡ definitions.is_new_front behind first end level }
{
    let front = span_of(level, first);
    behind <= front && is_cut(level, first, end, front)
}

/// Whether the last page's span is another one, and is cut.
fn is_new_back(first: u64, end: u64, level: u8) -> bool
    requires level { level ≤ 4 }
    requires some { first < end }
    requires wide { end < 2 ^ 44 }
    ensures { result ≡ definitions.is_new_back first end level }
{
    let back = span_of(level, end - 1);
    span_of(level, first) < back && is_cut(level, first, end, back)
}

/// How many tables of a level the pages from `first` to before `end` want that no page before `behind` wants: one for each
/// span that has some of them and other pages too. That can be the span of the first page and that of the last alone.
fn new_in_level(behind: u64, first: u64, end: u64, level: u8) -> u32
    requires level { level ≤ 4 }
    requires some { first < end }
    requires wide { end < 2 ^ 44 }
    ensures value { result ≡ definitions.new_in_level behind first end level }
    ensures few { result ≤ 2 }
{
    u32::from(is_new_front(behind, first, end, level)) + u32::from(is_new_back(first, end, level))
}

/// The same of all levels below the root's.
pub(crate) fn new_tables(levels: u8, behind: u64, first: u64, end: u64) -> u32
    requires four { 4 ≤ levels }
    requires five { levels ≤ 5 }
    requires some { first < end }
    requires wide { end < 2 ^ 44 }
    ensures value { result ≡ sum_by (definitions.new_in_level behind first end) (range_with_len 1 (levels - 1)) }
    ensures few { result ≤ 8 }
{
    let mut tables = 0;
    for level in 1..levels {
        tables += new_in_level(behind, first, end, level);
    }
    tables
}
