//! Written extensions made again, since an entry keeps its own.
ghost use Rattle.std.specs.Prelude.{◌≡◌, IfOk};

use hs_base::{Copies, List, Memory};
use hs_texts::{
    WrittenBody, WrittenExtension, WrittenKind, WrittenPoint, WrittenSupport, WrittenTime,
    WrittenToken,
};
use std::alloc::Global;

/// What can be made again, in memory of its own.
pub trait Again: Drop {
    /// An equal value.
    fn again(&self, alloc: Global) -> Result<Self, Memory>
        ensures { IfOk result (λ made. made ≡ self.now) };
}

/// The same items again.
fn items_again<T: Again>(alloc: Global, items: &List<T>) -> Result<List<T>, Memory>
    ensures { IfOk result (λ made. made ≡ items.now) }
{
    let mut made = List::new(alloc);
    for item in items.as_slice() {
        made.push(item.again(alloc)?)?;
    }
    Ok(made)
}

impl Again for WrittenToken {
    fn again(&self, alloc: Global) -> Result<WrittenToken, Memory> {
        Ok(WrittenToken {
            sv: self.sv.copy(alloc)?,
            place: self.place,
        })
    }
}

impl Again for WrittenPoint {
    fn again(&self, alloc: Global) -> Result<WrittenPoint, Memory> {
        match self {
            WrittenPoint::Origin => Ok(WrittenPoint::Origin),
            WrittenPoint::Horizon(k) => Ok(WrittenPoint::Horizon(*k)),
            WrittenPoint::End(token) => Ok(WrittenPoint::End(token.again(alloc)?)),
        }
    }
}

impl Again for WrittenTime {
    fn again(&self, alloc: Global) -> Result<WrittenTime, Memory> {
        Ok(WrittenTime {
            point: self.point.again(alloc)?,
            at: self.at,
        })
    }
}

impl Again for WrittenKind {
    fn again(&self, alloc: Global) -> Result<WrittenKind, Memory> {
        Ok(WrittenKind {
            sv: self.sv.copy(alloc)?,
            value: self.value.copy(alloc)?,
        })
    }
}

impl Again for WrittenSupport {
    fn again(&self, alloc: Global) -> Result<WrittenSupport, Memory> {
        Ok(WrittenSupport {
            token: self.token.again(alloc)?,
            need: self.need,
            by: self.by.again(alloc)?,
        })
    }
}

impl Again for WrittenBody {
    fn again(&self, alloc: Global) -> Result<WrittenBody, Memory> {
        Ok(WrittenBody {
            since: self.since,
            fixed: items_again(alloc, &self.fixed)?,
            tokens: items_again(alloc, &self.tokens)?,
            supports: items_again(alloc, &self.supports)?,
            goals: items_again(alloc, &self.goals)?,
        })
    }
}

impl Again for WrittenExtension {
    fn again(&self, alloc: Global) -> Result<WrittenExtension, Memory> {
        Ok(WrittenExtension {
            base: self.base,
            body: self.body.again(alloc)?,
        })
    }
}
