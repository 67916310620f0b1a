//! Publishing a list on a row, item by item.
ghost use Rattle.std.specs.Prelude.{◌≡◌, ◌≤◌, ◌<◌, [], ◌∷◌, ◌++◌, length, IfOk, IfErr, OnOk, OnErr};
ghost use Rattle.rbac_words.specs.Play.{IsPrefixOf};
ghost use Rattle.rbac_board.specs.Known.{IsOf};

use crate::refusal::PublishRefusal;
use rbac_board::{Mark, Row, SetRefusal};
use rbac_words::{Message, Record};
use std::alloc::{AllocError, Global};

// What can be published.
pub(crate) trait Publish: Drop {
    // An equal item.
    fn copied(&self) -> Result<Self, AllocError>
        ensures { IfOk result (λ copy. copy ≡ self.now) };
}

impl Publish for Message {
    fn copied(&self) -> Result<Message, AllocError> {
        self.copy()
    }
}

impl Publish for Record {
    fn copied(&self) -> Result<Record, AllocError> {
        self.copy()
    }
}

// Sets the next cell to a copy of the next item.
fn publish_one<T: Publish>(
    alloc: Global,
    row: &Row<T>,
    mark: &mut Mark<T>,
    place: usize,
    item: &T,
) -> Result<(), PublishRefusal>
    requires of { IsOf row.now mark.old }
    requires next { place ≡ length mark.old.values }
    ensures of { IsOf row.now mark.new }
    ensures published { OnOk result (mark.new.values ≡ mark.old.values ++ item.now ∷ []) }
    ensures full { IfErr result (λ refusal. refusal ≡ PublishRefusal.RowFull → length row.now ≤ place) }
    ensures unchanged { OnErr result (mark.new ≡ mark.old) }
{
    let Ok(copy) = item.copied() else {
        return Err(PublishRefusal::NoMemory);
    };
    let Ok(boxed) = Box::new(alloc, copy) else {
        return Err(PublishRefusal::NoMemory);
    };
    match row.set(mark, place, boxed) {
        Ok(()) => Ok(()),
        Err(SetRefusal::RowFull(_)) => Err(PublishRefusal::RowFull),
        Err(SetRefusal::Taken(_)) => Err(PublishRefusal::Taken),
        Err(SetRefusal::NoMemory(_)) => Err(PublishRefusal::NoMemory),
    }
}

// Publishes what the mark does not know of a list, of which it knows a beginning. After a refusal what was published stays.
pub(crate) fn publish_all<T: Publish>(
    alloc: Global,
    row: &Row<T>,
    mark: &mut Mark<T>,
    items: &[T],
) -> Result<(), PublishRefusal>
    requires of { IsOf row.now mark.old }
    requires begins { IsPrefixOf mark.old.values items.now }
    ensures of { IsOf row.now mark.new }
    ensures begins { IsPrefixOf mark.new.values items.now }
    ensures goes_on { IsPrefixOf mark.old.values mark.new.values }
    ensures whole { OnOk result (mark.new.values ≡ items.now) }
    ensures full { IfErr result (λ refusal. refusal ≡ PublishRefusal.RowFull → length row.now < length items.now) }
{
    for place in mark.len()..items.len() {
        publish_one(alloc, row, mark, place, &items[place])?;
    }
    Ok(())
}
