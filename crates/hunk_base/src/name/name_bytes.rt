//! The bytes of a name, in place where they are few.
ghost use Rattle.std.specs.Prelude.{◌≡◌, [], ◌++◌, length, IfOk, OnOk, OnErr};
ghost use Rattle.std.specs.Bool.{OnFalse, OnTrue};

use std::alloc::{AllocError, Allocator};
use std::marker::Model;

/// How many bytes a name has in place at most. With their number and the tag of the form they take 40 bytes. A vector takes
/// 24 of them, and the smallest allocation beside it 32 in most allocators.
const IN_PLACE: usize = 38;

/// Up to 38 bytes, with the allocator for what is more than these.
#[derive(Debug, Drop)]
struct FewBytes<A: Allocator + Copy> {
    alloc: A,
    len: u8,
    bytes: [u8; IN_PLACE],
}

impl<A: Allocator + Copy> Model for FewBytes<A> {
    ghost use Rattle.std.specs.Prelude.{ℕ, ◌≤◌, List, take};

    ghost Value = { List ℕ };

    ghost view = { λ few. take few.len few.bytes };

    ghost invariant = { λ few. few.len ≤ 38 };
}

impl<A: Allocator + Copy> FewBytes<A> {
    /// The bytes, in order.
    fn as_slice(&self) -> &[u8]
        ensures { result.now ≡ self.now }
    {
        &self.bytes[..usize::from(self.len)]
    }

    /// Appends bytes, if they are no more than there is a place for, and says whether they are.
    fn extend(&mut self, more: &[u8]) -> bool
        ensures extends { OnTrue result (self.new ≡ self.old ++ more.now) }
        ensures full { OnFalse result (self.new ≡ self.old) }
    {
        let start = usize::from(self.len);
        if more.len() > IN_PLACE - start {
            return false;
        }
        let end = start + more.len();
        self.bytes[start..end].copy_from_slice(more);
        self.len = end as u8;
        true
    }

    /// The bytes and more of them in an allocation, with memory for `spare` bytes more.
    fn with_more(&self, more: &[u8], spare: usize) -> Result<Vec<u8, A>, AllocError>
        ensures { IfOk result (λ all. all.items ≡ self.now ++ more.now) }
    {
        let few = self.as_slice();
        let count = few.len().saturating_add(more.len());
        let mut all = Vec::with_capacity(self.alloc, count.saturating_add(spare))?;
        all.extend_from_slice(few)?;
        all.extend_from_slice(more)?;
        Ok(all)
    }
}

/// Where the bytes of a name are.
#[derive(Debug, Drop)]
enum Form<A: Allocator + Copy> {
    InPlace(FewBytes<A>),
    Allocated(Vec<u8, A>),
}

/// The bytes of a name, which takes no allocation where they are 38 or fewer: a file may have millions of names, and most of
/// them are short.
#[derive(Debug, Drop)]
pub(crate) struct NameBytes<A: Allocator + Copy> {
    form: Form<A>,
}

impl<A: Allocator + Copy> Model for NameBytes<A> {
    ghost use Rattle.std.specs.Prelude.{ℕ, List};
    ghost use Rattle.hunk_base.specs.declared.name.name_bytes.Form.TheVariants.{InPlace, Allocated};

    ghost Value = { List ℕ };

    ghost view = { λ n. elim n.form [ InPlace few ↦ few | Allocated bytes ↦ bytes.items ] };
}

impl<A: Allocator + Copy> NameBytes<A> {
    /// No bytes.
    pub(crate) fn new(alloc: A) -> Self
        ensures { result ≡ [] }
    {
        NameBytes {
            form: Form::InPlace(FewBytes {
                alloc,
                len: 0,
                bytes: [0; IN_PLACE],
            }),
        }
    }

    /// These bytes.
    pub(crate) fn from_slice(alloc: A, bytes: &[u8]) -> Result<Self, AllocError>
        ensures { IfOk result (λ n. n ≡ bytes.now) }
    {
        let mut copied = NameBytes::new(alloc);
        copied.extend(bytes, 0)?;
        Ok(copied)
    }

    /// The bytes, in order.
    pub(crate) fn as_slice(&self) -> &[u8]
        ensures { result.now ≡ self.now }
    {
        match &self.form {
            Form::InPlace(few) => few.as_slice(),
            Form::Allocated(bytes) => bytes,
        }
    }

    /// The number of bytes.
    pub(crate) fn len(&self) -> usize
        ensures { result ≡ length self.now }
    {
        self.as_slice().len()
    }

    /// Appends bytes, with memory for `spare` bytes more where they do not stay in place. If the allocation fails, the bytes
    /// stay as they were.
    pub(crate) fn extend(&mut self, more: &[u8], spare: usize) -> Result<(), AllocError>
        ensures extends { OnOk result (self.new ≡ self.old ++ more.now) }
        ensures refused { OnErr result (self.new ≡ self.old) }
    {
        match &mut self.form {
            Form::InPlace(few) => {
                if !few.extend(more) {
                    self.form = Form::Allocated(few.with_more(more, spare)?);
                }
                Ok(())
            }
            Form::Allocated(bytes) => {
                bytes.reserve(more.len().saturating_add(spare))?;
                bytes.extend_from_slice(more)
            }
        }
    }
}
