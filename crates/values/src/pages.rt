// The page of direct addresses: what is known of the register DP.
ghost use Rattle.std.specs.Prelude.{◌≡◌};
ghost use Rattle.values.specs.Pages.{reaches, is_unknown, is_zero, is_page, page_numbered};

// Nothing is known, or the high byte of the addresses that a direct code reaches.
// No `Option`: its `None` would not say of a page that it is unknown.
#[derive(Clone, Copy)]
pub enum Page {
    Unknown,
    Known(u8),
}

impl Page {
    // An address that a direct code reaches.
    pub fn reaches(self, address: u16) -> bool
        ensures { result ≡ reaches self address }
    {
        matches!(self, Page::Known(high) if high as u16 == address / 256)
    }

    pub fn is_unknown(self) -> bool
        ensures { result ≡ is_unknown self }
    {
        matches!(self, Page::Unknown)
    }

    pub fn is_zero(self) -> bool
        ensures { result ≡ is_zero self }
    {
        matches!(self, Page::Known(0))
    }

    // The page that a number of a row stands for: 256 is unknown. Whoever reads the row refuses what `is_page` does not tell.
    #[tactic(auto, unfolding(crate::specs::Pages::page_numbered, ground::specs::Choice::pick))]
    pub fn numbered(n: u16) -> Page
        ensures { result ≡ page_numbered n }
    {
        match u8::try_from(n) {
            Ok(high) => Page::Known(high),
            Err(_) => Page::Unknown,
        }
    }
}

// A number of a row stands for a page.
#[tactic(auto, unfolding(crate::specs::Pages::is_page))]
pub fn is_page(n: u16) -> bool
    ensures { result ≡ is_page n }
{
    n <= 256
}
