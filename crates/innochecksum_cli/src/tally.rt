// What the pages that were looked at add up to.
ghost use Rattle.std.specs.Prelude.{◌≡◌, ◌+◌, ◌-◌, ◌^◌, ◌<◌, ◌++◌, ◌∷◌, [], ℕ, List, length, slice_index, min, IfOk, vec_len, not, ◌&&◌, ◌==◌, if◌then◌else◌};
ghost use Rattle.space_head.specs.Sizes.{IsPageSize};
ghost use Rattle.byte_list.specs.Fields.{be32_at};
ghost use Rattle.page_text.specs.State.{IsState};
ghost use Rattle.innochecksum_cli.specs.States.{is_bad_state, is_zero_state};

use byte_list::fields::{be16_at, be32_at};
use page_text::PageState;
use std::alloc::{AllocError, Global};

// Where the type stands in a page, in bytes.
const TYPE: usize = 24;

/// What the pages that were looked at add up to.
#[derive(Drop)]
pub struct Tally {
    /// All the pages.
    pub checked: u64,
    /// Those whose checksum isn't theirs.
    pub mismatches: u64,
    /// Those that are zero.
    pub unused: u64,
    /// Those that aren't zero and have a key version other than 0.
    pub ciphered: u64,
    /// Of each page type the pages that aren't zero.
    pub kinds: Vec<u64>,
    ghost all_kinds: { vec_len kinds ≡ 65536 },
}

/// Counts that are 0.
fn zeros(alloc: Global, count: usize) -> Result<Vec<u64>, AllocError>
    ensures long { IfOk result (λ counts. vec_len counts ≡ count) }
    ensures zero { IfOk result (λ counts. (i : ℕ) → i < count → slice_index counts.items i ≡ 0) }
{
    vec![in alloc; 0u64; count]
}

/// Counts one more, where there is one, up to the end of a u64.
fn counted(count: u64, more: bool) -> u64
    ensures { result ≡ min (count + (if more then 1 else 0)) (2 ^ 64 - 1) }
{
    if more { count.saturating_add(1) } else { count }
}

impl Tally {
    ghost use Rattle.innochecksum_cli.specs.Tallies.{IsTally};
    ghost use Rattle.innochecksum_cli.specs.Pages.{FilePage};

    /// No page was looked at.
    pub fn new(alloc: Global) -> Result<Tally, AllocError>
        ensures { IfOk result (IsTally []) }
    {
        let kinds = zeros(alloc, 65536)?;
        Ok(Tally {
            checked: 0,
            mismatches: 0,
            unused: 0,
            ciphered: 0,
            kinds,
        })
    }

    /// Adds a page in this state. No count passes the end of a u64.
    pub fn add(&mut self, page: &[u8], state: PageState)
        requires sized { IsPageSize (length page.now) }
        requires known { IsState page.now state }
        ensures { (pages : List FilePage) (number : ℕ) → length pages + 1 < 2 ^ 64 → IsTally pages self.old
            → IsTally (pages ++ record { number = number; bytes = page.now } ∷ []) self.new }
    {
        let is_used = !is_zero(state);
        let kind = usize::from(be16_at(page, TYPE));
        let of_kind = counted(self.kinds[kind], is_used);
        self.kinds[kind] = of_kind;
        self.checked = counted(self.checked, true);
        self.mismatches = counted(self.mismatches, is_bad(state));
        self.unused = counted(self.unused, is_zero(state));
        self.ciphered = counted(self.ciphered, is_ciphered(page, state));
    }
}

fn is_zero(state: PageState) -> bool
    ensures { result ≡ is_zero_state state }
{
    match state {
        PageState::Zero => true,
        PageState::Valid | PageState::Bad { .. } => false,
    }
}

fn is_ciphered(page: &[u8], state: PageState) -> bool
    requires { IsPageSize (length page.now) }
    ensures { result ≡ (not (is_zero_state state) && not (be32_at page.now 0 == 0)) }
{
    !is_zero(state) && be32_at(page, 0) != 0
}

fn is_bad(state: PageState) -> bool
    ensures { result ≡ is_bad_state state }
{
    match state {
        PageState::Zero | PageState::Valid => false,
        PageState::Bad { .. } => true,
    }
}
