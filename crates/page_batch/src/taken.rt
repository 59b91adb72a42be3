// A page as it was copied.
ghost use Rattle.std.specs.Prelude.{◌≡◌, length, IfOk};
ghost use Rattle.byte_list.specs.Fields.{be16_at};
ghost use Rattle.page_batch.specs.Batch.{HasPageType};
ghost use Rattle.page_places.specs.Texts.{page_bytes, page_type_at};
ghost use Rattle.page_text.specs.Text.{plain_of};

use cause_core::OutOfMemory;
use std::alloc::Global;
use std::marker::Model;

// A page as it was copied, and a copy more, over which its text is sealed.
#[derive(Drop)]
pub(crate) struct CopiedBytes {
    pub(crate) page: u32,
    pub(crate) lsn: u64,
    pub(crate) bytes: Vec<u8>,
    pub(crate) copy: Vec<u8>,
}

impl Model for CopiedBytes {
    ghost use Rattle.page_batch.specs.Batch.{CopiedPage, IsCopiedPage};
    ghost use Rattle.page_text.specs.Text.{plain_of};

    ghost Value = { CopiedPage };

    ghost view = { λ p. record { page = p.page; lsn = p.lsn; plain = plain_of p.bytes.items } };

    ghost invariant = { λ p. IsCopiedPage p.page p.bytes.items p.copy.items };
}

impl CopiedBytes {
    pub(crate) fn of(
        alloc: Global,
        page: u32,
        lsn: u64,
        bytes: &[u8],
    ) -> Result<CopiedBytes, OutOfMemory>
        requires long { length bytes.now ≡ page_bytes }
        requires typed { HasPageType page (be16_at bytes.now page_type_at) }
        ensures { IfOk result (λ p. p ≡ record { page = page; lsn = lsn; plain = plain_of bytes.now }) }
    {
        let own = bytes.to_vec(alloc)?;
        let copy = bytes.to_vec(alloc)?;
        Ok(CopiedBytes {
            page,
            lsn,
            bytes: own,
            copy,
        })
    }
}
