// The machine's geometry: the one place of its numbers, from address to page and from page to bytes.
#![tactic(auto)]

ghost use Rattle.std.specs.Prelude.{◌≡◌, ◌≤◌, ◌<◌, [], ◌∷◌};
ghost use Rattle.geometry.specs.Geometry.{page_size, least_pages, most_pages, slot_count, pcr_count, digest_size, most_held, half_page, page_of, start_of, bytes_of, is_range};

// The bytes of a page: from `start` up to, and without, `end`. It is no `Range`, which is no `Copy`.
#[derive(Clone, Copy)]
pub struct Span {
    pub start: usize,
    pub end: usize,
}

// A type for its constants alone.
#[derive(Clone, Copy)]
pub struct Geometry;

impl Geometry {
    pub const PAGE: usize = 4096;

    pub const LEAST_PAGES: usize = 2;

    pub const MOST_PAGES: usize = 1024;

    pub const SLOTS: usize = 8;

    pub const PCRS: usize = 8;

    pub const DIGEST: usize = 20;

    pub const MOST_HELD: usize = 64;

    pub const HALF: usize = 2048;

    // The constants are the definitions' numbers: neither moves without the other.
    pub fn numbers() -> [usize; 8]
        ensures { result ≡ page_size ∷ least_pages ∷ most_pages ∷ slot_count ∷ pcr_count ∷ digest_size ∷ most_held ∷ half_page ∷ [] }
    {
        [
            Geometry::PAGE,
            Geometry::LEAST_PAGES,
            Geometry::MOST_PAGES,
            Geometry::SLOTS,
            Geometry::PCRS,
            Geometry::DIGEST,
            Geometry::MOST_HELD,
            Geometry::HALF,
        ]
    }

    pub fn page_of(address: usize) -> usize
        ensures { result ≡ page_of address }
    {
        address / Geometry::PAGE
    }

    pub fn start_of(page: usize) -> usize
        requires { page ≤ most_pages }
        ensures { result ≡ start_of page }
    {
        page * Geometry::PAGE
    }

    // The bytes of a page.
    pub fn bytes_of(page: usize) -> Span
        requires { page < most_pages }
        ensures { result ≡ bytes_of page }
    {
        let start = page * Geometry::PAGE;
        Span {
            start,
            end: start + Geometry::PAGE,
        }
    }

    // Whether n bytes from an address are a range of a memory of that many pages.
    #[tactic(auto, unfolding(crate::specs::Geometry::is_range))]
    pub fn is_range(pages: usize, address: usize, n: usize) -> bool
        ensures { result ≡ is_range pages address n }
    {
        1 <= n
            && n <= Geometry::PAGE
            && address % Geometry::PAGE + n <= Geometry::PAGE
            && Geometry::page_of(address) < pages
    }
}
