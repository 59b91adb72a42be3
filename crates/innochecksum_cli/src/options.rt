// What an inspection is asked for.

/// What an inspection is asked for.
#[derive(Clone, Copy, Debug, PartialEq, Eq)]
pub struct Options {
    /// Only count the whole pages.
    pub count: bool,
    /// The number of the first page to check, from 0.
    pub first: u64,
    /// The number of the last page to check.
    pub last: u64,
    /// How many mismatches are permitted.
    pub allowed: u64,
    /// Whether to end with a summary of what the pages are.
    pub summary: bool,
}
