ghost use Rattle.std.specs.Prelude.{◌≡◌, [], ◌∷◌, ◌++◌, IfOk, OnOk, OnErr};

use crate::duplicate::Duplicate;
use crate::memory::NoMemory;
use std::alloc::Global;
use std::marker::Model;

/// A list that owns its members, in memory that grows at its end. Contracts see it as that list.
#[derive(Debug, Drop)]
pub struct OwnedList<T> {
    members: Vec<T>,
}

impl<T> Model for OwnedList<T> {
    ghost use Rattle.std.specs.Prelude.{List};
    ghost use Rattle.std.specs.Coded.{coded_list};

    ghost Value = { List T };

    ghost coded = { coded_list T.code };

    ghost view = { λ l. l.members.items };
}

impl<T: Drop> OwnedList<T> {
    /// An empty list, which holds no memory yet.
    pub fn new(alloc: Global) -> OwnedList<T>
        ensures { result ≡ [] }
    {
        OwnedList {
            members: Vec::new(alloc),
        }
    }

    /// The list of these members, in the memory that they have. Constant time.
    pub fn from_vec(members: Vec<T>) -> OwnedList<T>
        ensures { result ≡ members.items }
    {
        OwnedList { members }
    }

    /// The members, in the memory that the list has. Constant time.
    pub fn into_vec(self) -> Vec<T>
        ensures { result.items ≡ self }
    {
        let OwnedList { members } = self;
        members
    }

    /// Puts the item at the end. Where memory lacks, the list stays and the item is dropped. Constant time over many calls.
    pub fn push(&mut self, item: T) -> Result<(), NoMemory>
        ensures ok { OnOk result (self.new ≡ self.old ++ item ∷ []) }
        ensures err { OnErr result (self.new ≡ self.old) }
    {
        self.members.push(item)?;
        Ok(())
    }

    /// Puts the members of the other list at the end, in their order, all of them or none. Linear in their number over many calls.
    pub fn append(&mut self, other: OwnedList<T>) -> Result<(), NoMemory>
        ensures ok { OnOk result (self.new ≡ self.old ++ other) }
        ensures err { OnErr result (self.new ≡ self.old) }
    {
        let OwnedList { mut members } = other;
        self.members.append(&mut members)?;
        Ok(())
    }

    /// The members, borrowed, in their order.
    pub fn items(&self) -> &[T]
        ensures { result.now ≡ self.now }
    {
        self.members.as_slice()
    }
}

impl<T: Duplicate> OwnedList<T> {
    /// A list of copies of the members, in their order. Linear in what the members hold.
    pub fn copy(&self, alloc: Global) -> Result<OwnedList<T>, NoMemory>
        ensures { IfOk result (λ copy. copy ≡ self.now) }
    {
        let members = duplicates(alloc, self.members.as_slice())?;
        Ok(OwnedList { members })
    }
}

impl<T: Duplicate> Duplicate for OwnedList<T> {
    fn duplicate(&self, alloc: Global) -> Result<OwnedList<T>, NoMemory> {
        self.copy(alloc)
    }
}

fn duplicates<T: Duplicate>(alloc: Global, items: &[T]) -> Result<Vec<T>, NoMemory>
    ensures { IfOk result (λ copy. copy.items ≡ items.now) }
{
    let mut members = Vec::new(alloc);
    for item in items {
        members.push(item.duplicate(alloc)?)?;
    }
    Ok(members)
}
