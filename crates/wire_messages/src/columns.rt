//! The columns of an answer.

ghost use Rattle.std.specs.Prelude.{◌≡◌, IfOk};

use ae_base::types::{Enc, Ty};
use std::alloc::{AllocError, Global};
use wire_parts::copies::ToOwn;
use wire_parts::texts::TitlePart;

/// A column of an answer: its title, its type, and how it is encrypted.
#[derive(Drop)]
pub struct SentColumn<'a> {
    pub title: TitlePart<'a>,
    pub ty: Ty,
    pub enc: Enc,
}

impl<'a, 'b> ToOwn<SentColumn<'b>> for SentColumn<'a> {
    ghost same = { λ c. c };

    fn to_own(&self, alloc: Global) -> Result<SentColumn<'b>, AllocError> {
        Ok(SentColumn {
            title: self.title.to_own(alloc)?,
            ty: self.ty,
            enc: self.enc,
        })
    }
}
