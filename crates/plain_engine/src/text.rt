// The text of a mini-transaction.
ghost use Rattle.std.specs.Prelude.{◌≡◌, ◌∷◌, ◌++◌, ◌<◌, ◌^◌, length, IfOk, OnOk};
ghost use Rattle.plain_engine.specs.Text.{plain_change_text, mtr_text, IsAllowedInLog, ArePlainAllowed};
ghost use Rattle.std.specs.Int.{to_be_bytes, w32};

use std::alloc::{AllocError, Global};
use store_model::{Change, Mtr, Piece};

fn push_page(text: &mut Vec<u8>, kind: u8, space: u32, page: u32) -> Result<(), AllocError>
    ensures { OnOk result (text.new.items ≡ text.old.items ++ (kind ∷ to_be_bytes w32 space ++ to_be_bytes w32 page)) }
{
    text.extend_from_slice(&[kind])?;
    text.extend_from_slice(&space.to_be_bytes())?;
    text.extend_from_slice(&page.to_be_bytes())
}

fn push_put(
    text: &mut Vec<u8>,
    space: u32,
    page: u32,
    at: u32,
    bytes: &Piece,
) -> Result<(), AllocError>
    requires { length bytes.now < 2 ^ 32 }
    ensures { OnOk result (text.new.items ≡ text.old.items ++ plain_change_text (Change.Put space page at bytes.now)) }
{
    push_page(text, 1, space, page)?;
    text.extend_from_slice(&at.to_be_bytes())?;
    text.extend_from_slice(&(bytes.len() as u32).to_be_bytes())?;
    text.extend_from_slice(bytes.bytes())?;
    Ok(())
}

fn push_kind(text: &mut Vec<u8>, space: u32, page: u32, kind: u16) -> Result<(), AllocError>
    ensures { OnOk result (text.new.items ≡ text.old.items ++ plain_change_text (Change.Kind space page kind)) }
{
    push_page(text, 2, space, page)?;
    text.extend_from_slice(&kind.to_be_bytes())?;
    Ok(())
}

// Adds the text of one change.
fn push_change(text: &mut Vec<u8>, change: &Change) -> Result<(), AllocError>
    requires { IsAllowedInLog change.now }
    ensures { OnOk result (text.new.items ≡ text.old.items ++ plain_change_text change.now) }
{
    match change {
        Change::Put {
            space,
            page,
            at,
            bytes,
        } => push_put(text, *space, *page, *at, bytes),
        Change::Kind { space, page, kind } => push_kind(text, *space, *page, *kind),
        Change::Touch { space, page } => push_page(text, 3, *space, *page),
        Change::Floor { space, version } => push_page(text, 4, *space, *version),
        Change::Encrypt { space } => {
            text.extend_from_slice(&[5])?;
            text.extend_from_slice(&space.to_be_bytes())
        }
    }
}

/// The text of a mini-transaction.
pub fn mtr_text(alloc: Global, mtr: &Mtr) -> Result<Vec<u8>, AllocError>
    requires { ArePlainAllowed mtr.now }
    ensures { IfOk result (λ v. v.items ≡ mtr_text mtr.now) }
{
    let mut text = Vec::new(alloc);
    for change in mtr.changes() {
        push_change(&mut text, change)?;
    }
    Ok(text)
}
