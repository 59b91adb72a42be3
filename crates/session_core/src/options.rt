// What a session is started with.

/// What a session is started with.
#[derive(Clone, Copy, Debug, PartialEq, Eq)]
pub struct SessionOptions {
    /// The version of the keys that new texts are ciphered under.
    pub active: u32,
    /// By how many versions a page may be behind, 0 for any number.
    pub age: u32,
}
