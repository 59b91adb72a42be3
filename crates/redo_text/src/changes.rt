// The changes of a text, lent from it one after the other.
ghost use Rattle.std.specs.Prelude.{◌≡◌, ◌≢◌, ℕ, ◌+◌, ◌∷◌, ◌++◌, ◌<◌, ◌^◌, List, true, false, length, IfSome, IfNone};
ghost use Rattle.byte_list.specs.Bytes.{AreBytes};
ghost use Rattle.redo_text.specs.declared.change.Change.{Change};
ghost use Rattle.redo_text.specs.Text.{IsRange};
ghost use Rattle.redo_text.specs.Changes.{Begins, BeginsWithNone, IsLent, IsNextChange, ChangePlace, change_of};

use crate::BadRecord;
use crate::layout::{PAGE_BODY_AT, PAGE_BODY_END};
use byte_list::fields::{be16_at, be32_at};
use bytes_core::Cursor;
use std::marker::Model;

/// One change of a page or of a tablespace, as [`Change`](crate::Change), with the bytes of a put
/// lent from the text.
#[derive(Clone, Copy, Debug, PartialEq, Eq)]
pub enum ChangeView<'a> {
    Put {
        space: u32,
        page: u32,
        at: u32,
        bytes: &'a [u8],
    },
    Kind {
        space: u32,
        page: u32,
        kind: u16,
    },
    Touch {
        space: u32,
        page: u32,
    },
    Floor {
        space: u32,
        version: u32,
    },
    Encrypt {
        space: u32,
    },
}

// Each element of a text is a byte.
#[inline(always)]
pub(crate) fn known_bytes(bytes: &[u8])
    ensures { AreBytes bytes.now }
{
    let _ = bytes.len();
}

// Whether a put of so many bytes may stand here.
fn may_put(page: u32, at: u32, size: u32) -> bool
    ensures yes { result ≡ true → (0 < page) × IsRange at size }
    ensures no { result ≡ false → 0 < page → IsRange at size → ⊥ }
{
    0 < page && 0 < size && PAGE_BODY_AT <= at && at <= PAGE_BODY_END && size <= PAGE_BODY_END - at
}

// Whether a page may have this type.
fn may_have(page: u32, kind: u16) -> bool
    ensures yes { result ≡ true → (0 < page) × (kind ≢ 8) × (kind ≢ 9) }
    ensures no { result ≡ false → 0 < page → kind ≢ 8 → kind ≢ 9 → ⊥ }
{
    0 < page && kind != 8 && kind != 9
}

// A put, behind its first byte.
fn put<'a>(cursor: &mut Cursor<'a>) -> Option<ChangeView<'a>>
    ensures some { IfSome result (λ view. Begins (1 ∷ cursor.old) (change_of view) cursor.new) }
    ensures none { IfNone result (BeginsWithNone (1 ∷ cursor.old)) }
{
    let fields = cursor.take(16)?;
    known_bytes(fields);
    let space = be32_at(fields, 0);
    let page = be32_at(fields, 4);
    let at = be32_at(fields, 8);
    let size = be32_at(fields, 12);
    let bytes = cursor.take(size as usize)?;
    if !may_put(page, at, size) {
        return None;
    }
    Some(ChangeView::Put {
        space,
        page,
        at,
        bytes,
    })
}

// A page's type, behind its first byte.
fn kind<'a>(cursor: &mut Cursor<'a>) -> Option<ChangeView<'a>>
    ensures some { IfSome result (λ view. Begins (2 ∷ cursor.old) (change_of view) cursor.new) }
    ensures none { IfNone result (BeginsWithNone (2 ∷ cursor.old)) }
{
    let fields = cursor.take(10)?;
    known_bytes(fields);
    let space = be32_at(fields, 0);
    let page = be32_at(fields, 4);
    let kind = be16_at(fields, 8);
    if !may_have(page, kind) {
        return None;
    }
    Some(ChangeView::Kind { space, page, kind })
}

// A touch, behind its first byte.
fn touch<'a>(cursor: &mut Cursor<'a>) -> Option<ChangeView<'a>>
    ensures some { IfSome result (λ view. Begins (3 ∷ cursor.old) (change_of view) cursor.new) }
    ensures none { IfNone result (BeginsWithNone (3 ∷ cursor.old)) }
{
    let fields = cursor.take(8)?;
    known_bytes(fields);
    let space = be32_at(fields, 0);
    let page = be32_at(fields, 4);
    Some(ChangeView::Touch { space, page })
}

// A floor, behind its first byte.
fn floor<'a>(cursor: &mut Cursor<'a>) -> Option<ChangeView<'a>>
    ensures some { IfSome result (λ view. Begins (4 ∷ cursor.old) (change_of view) cursor.new) }
    ensures none { IfNone result (BeginsWithNone (4 ∷ cursor.old)) }
{
    let fields = cursor.take(8)?;
    known_bytes(fields);
    let space = be32_at(fields, 0);
    let version = be32_at(fields, 4);
    Some(ChangeView::Floor { space, version })
}

// A tablespace made a ciphered one, behind its first byte.
fn encrypt<'a>(cursor: &mut Cursor<'a>) -> Option<ChangeView<'a>>
    ensures some { IfSome result (λ view. Begins (5 ∷ cursor.old) (change_of view) cursor.new) }
    ensures none { IfNone result (BeginsWithNone (5 ∷ cursor.old)) }
{
    let fields = cursor.take(4)?;
    known_bytes(fields);
    let space = be32_at(fields, 0);
    Some(ChangeView::Encrypt { space })
}

// The change that the text begins with.
fn change<'a>(cursor: &mut Cursor<'a>) -> Option<ChangeView<'a>>
    ensures some { IfSome result (λ view. Begins cursor.old (change_of view) cursor.new) }
    ensures none { IfNone result (BeginsWithNone cursor.old) }
{
    let first = cursor.take(1)?;
    match first[0] {
        1 => put(cursor),
        2 => kind(cursor),
        3 => touch(cursor),
        4 => floor(cursor),
        5 => encrypt(cursor),
        _ => None,
    }
}

/// A text that is read change by change. Contracts see it as the place that it has come to, in bytes
/// from the text's beginning, and the bytes from there on.
#[derive(Drop)]
pub struct Changes<'a> {
    at: usize,
    rest: &'a [u8],
}

impl<'a> Model for Changes<'a> {
    ghost Value = { ChangePlace };

    ghost view = { λ changes. record { at = changes.at; rest = changes.rest.now } };

    ghost invariant = { λ changes. changes.at + length changes.rest.now < 2 ^ 63 };
}

impl<'a> Changes<'a> {
    /// A reader before the first of a text's changes.
    pub fn new(text: &'a [u8]) -> Changes<'a>
        ensures { result ≡ record { at = 0; rest = text.now } }
    {
        Changes { at: 0, rest: text }
    }

    /// Lends the next change from the text; None at the text's end. No text of a change begins
    /// another change's text, so a text determines its changes.
    ///
    /// # Errors
    /// [`BadRecord`] exactly where no change begins at the place that it names. The reader stays there.
    pub fn next(&mut self) -> Result<Option<ChangeView<'a>>, BadRecord>
        ensures next { IsNextChange self.old self.new result }
        ensures only { (change : Change) (rest : List ℕ) → Begins self.old.rest change rest → IsLent change rest self.new result }
    {
        if self.rest.is_empty() {
            return Ok(None);
        }
        let mut cursor = Cursor::new(self.rest);
        let Some(view) = change(&mut cursor) else {
            return Err(BadRecord { at: self.at });
        };
        let read = self.rest.len() - cursor.len();
        self.at += read;
        self.rest = &self.rest[read..];
        Ok(Some(view))
    }
}
